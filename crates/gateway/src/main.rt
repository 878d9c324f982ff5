// Reads the records of a small collection of message templates, and tells what each says.
#![tactic(auto)]

mod samples;
mod show;
mod shown;

use builtin::Builtin;
use catalogue::{Catalogue, Kind, Overlay, Registry};
use samples::{CUT_TEXT, FRAME, LINE_ZERO, METER, MUTE, TWO_OPEN};
use show::Show;
use std::io;

fn main(rt: HostRuntime) -> io::Result<()> {
    // the gateway's own filter, over the built-in names
    let mut names = Overlay {
        own: Registry::with_places(rt.alloc(), 4)?,
        below: Builtin,
    };
    match names.register(Kind::Filter, b"hex", 256) {
        Ok(()) => println!(rt; "The gateway's own filter \"hex\" has the number 256.")?,
        Err(refusal) => {
            let number = refusal.number();
            println!(rt; "register refused {number}")?;
        }
    }
    let show = Show {
        rt: &rt,
        heap: rt.alloc(),
        names: &names,
    };
    println!(rt; "")?;
    println!(rt;
        "A frame, a profile that widens its tail and calls up to it, and one that forgets to."
    )?;
    show.template(FRAME)?;
    show.template(METER)?;
    show.template(MUTE)?;
    println!(rt; "")?;
    println!(rt; "Three damaged records.")?;
    show.template(TWO_OPEN)?;
    show.template(CUT_TEXT)?;
    show.template(LINE_ZERO)
}
