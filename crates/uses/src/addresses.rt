//! Returns an address, whose host and port its text tells.

ghost use Rattle.std.specs.Prelude.{◌≡◌, List, ℕ, pos};
ghost use Rattle.lexical_write_integer.specs.InCommon.{HaveInCommon};
ghost use Rattle.lexical_parts.specs.Sequence.{◌then◌, IsDecimal, IsStr};
ghost use Rattle.uses.specs.Address.{IsAddress};

use lexical_parts::{Part, equal_pairs, same_split};
use lexical_write_integer::format::STANDARD;
use lexical_write_integer::laws::text_has_no;

/// Returns the address, such as `10:80`, which borrows the array.
pub fn address(host: u32, port: u16, buffer: &mut [u8; 16]) -> &[u8]
    ensures { IsAddress host port result.now }
{
    (host, ":", port).to_text(buffer)
}

/// A law: two addresses with equal texts are equal.
pub fn same_address(a: u32, b: u16, c: u32, d: u16)
    ensures host { (text : List ℕ) → IsAddress a b text → IsAddress c d text → a ≡ c }
    ensures port { (text : List ℕ) → IsAddress a b text → IsAddress c d text → b ≡ d }
{
    equal_pairs(a, c, b':', b, d, &STANDARD);
}

/// A law: if two hosts with a path have equal texts, so have the hosts, and the paths.
pub fn same_path<P: Part, Q: Part>(a: u32, b: u32, p: P, q: Q)
    ensures hosts { (text : List ℕ) → (IsDecimal (pos a) then IsStr "/" then P.is_text p) text
        → (IsDecimal (pos b) then IsStr "/" then Q.is_text q) text
        → HaveInCommon (IsDecimal (pos a)) (IsDecimal (pos b)) }
    ensures paths { (text : List ℕ) → (IsDecimal (pos a) then IsStr "/" then P.is_text p) text
        → (IsDecimal (pos b) then IsStr "/" then Q.is_text q) text
        → HaveInCommon (P.is_text p) (Q.is_text q) }
{
    text_has_no(a, &STANDARD, b'/');
    text_has_no(b, &STANDARD, b'/');
    same_split(a, b, b'/', p, q);
}
