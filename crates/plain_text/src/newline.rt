//! The first line feed of a text.
ghost use Rattle.std.specs.Prelude.{◌≡◌, position};
ghost use Rattle.plain_text.specs.Cuts.{is_newline};

use memchr::memchr;

/// Where the first line feed stands. A call, so that the code around it stays small.
#[inline(never)]
pub fn newline_at(text: &[u8]) -> Option<usize>
    ensures { result ≡ position is_newline text.now }
{
    memchr(b'\n', text)
}
