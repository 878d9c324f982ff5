// The lines of a source: one more than it has bytes 0A.
ghost use Rattle.std.specs.Prelude.{◌≡◌, ◌+◌, length};
ghost use Rattle.std.specs.Option.{option_map};
ghost use Rattle.text.specs.Lines.{breaks, line_at, lines};

// How many lines the source has.
pub fn line_count(source: &[u8]) -> usize
    ensures count { result ≡ breaks source.now + 1 }
    ensures lines { result ≡ length (lines source.now) }
{
    let found: usize = source.iter().map(|&byte| usize::from(byte == b'\n')).sum();
    found + 1
}

// Line `n`, counted from 1, without its 0A.
pub fn line(source: &str, n: usize) -> Option<&str>
    ensures { option_map (λ x. x.now) result ≡ line_at source.now n }
{
    source.split('\n').nth(n.checked_sub(1)?)
}
