// The 73 bytes that stand for a pair.
ghost use Rattle.std.specs.Prelude.{◌≡◌, ◌≤◌, ◌+◌, length};
ghost use Rattle.std.proofs.lemmas.List.Edits.{sets};
ghost use Rattle.register.specs.Pair.{pair_bytes};

use text::head;

// Writes `part` into the bytes from a place on.
pub fn copy_in(bytes: &mut [u8], at: usize, part: &[u8])
    requires { at + length part.now ≤ length bytes.old }
    ensures { bytes.new ≡ sets bytes.old at part.now }
{
    bytes[at..at + part.len()].copy_from_slice(part);
}

// An entity of over 20 bytes and a reference of over 52 are cut; shorter ones are filled with zeros. The length byte is
// that of the reference as cut to 52.
pub fn pair_bytes(entity: &[u8], reference: &[u8]) -> [u8; 73]
    ensures { result ≡ pair_bytes entity.now reference.now }
{
    let mut pair = [0u8; 73];
    let cut = head(reference, 52);
    copy_in(&mut pair, 0, head(entity, 20));
    pair[20] = cut.len() as u8;
    copy_in(&mut pair, 21, cut);
    pair
}
