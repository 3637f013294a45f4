// The bytes of a line: which may stand in it, and how far spaces and words go.
ghost use Rattle.std.specs.Prelude.{◌≡◌, ◌<◌, ◌≤◌, ◌==◌, not, length, IfSome};
ghost use Rattle.std.specs.List.{position_from, prefix_len};
ghost use Rattle.netlist_text.specs.Words.{name_byte, sign_byte, line_byte, stray};
ghost use Rattle.scanner.specs.Scanned.{column};

use crate::token::ScanFault;

fn is_name_byte(b: u8) -> bool
    ensures { result ≡ name_byte b }
{
    b.is_ascii_alphanumeric() || b == b'_'
}

fn is_sign_byte(b: u8) -> bool
    ensures { result ≡ sign_byte b }
{
    b == b'(' || b == b')' || b == b',' || b == b'='
}

fn is_line_byte(b: u8) -> bool
    ensures { result ≡ line_byte b }
{
    is_name_byte(b) || b == b' ' || is_sign_byte(b)
}

// Where the first byte is that may not stand in a line.
fn stray(line: &[u8]) -> Option<usize>
    ensures value { result ≡ position_from (λ b. not (line_byte b)) 0 line.now }
    ensures within { IfSome result (λ at. at < length line.now) }
{
    line.iter().position(|b| !is_line_byte(*b))
}

// Whether every byte may stand in a line; the first that may not is the fault.
pub(crate) fn check_bytes(line: &[u8]) -> Result<(), ScanFault>
    ensures { column result ≡ stray 1 line.now }
{
    match stray(line) {
        Some(at) => Err(ScanFault { column: at + 1 }),
        None => Ok(()),
    }
}

// How many spaces there are at the front.
pub(crate) fn space_len(s: &[u8]) -> usize
    ensures value { result ≡ prefix_len (λ b. b == 32) s.now }
    ensures bound { result ≤ length s.now }
{
    s.iter().take_while(|b| **b == b' ').count()
}

// How many bytes at the front belong to one word.
pub(crate) fn word_len(s: &[u8]) -> usize
    ensures value { result ≡ prefix_len name_byte s.now }
    ensures bound { result ≤ length s.now }
{
    s.iter().take_while(|b| is_name_byte(**b)).count()
}
