// The end of a line.
ghost use Rattle.std.specs.Prelude.{◌≡◌};
ghost use Rattle.checker.specs.Bare.{bare as Bare·bare};
ghost use Rattle.checker.specs.Progress.{line_end};

// A line whose LF is dropped, without a CR at its end.
#[tactic(auto, using(crate::proofs::BareLaws::bare_none, crate::proofs::BareLaws::bare_cr, crate::proofs::BareLaws::bare_whole))]
pub fn bare(s: &[u8]) -> &[u8]
    ensures { result.now ≡ Bare·bare s.now }
{
    match s {
        [line @ .., b'\r'] => line,
        _ => s,
    }
}

// The place of the first LF, or the length.
pub fn line_end(s: &[u8]) -> usize
    ensures { result ≡ line_end s.now }
{
    s.iter().position(|&b| b == b'\n').unwrap_or(s.len())
}
