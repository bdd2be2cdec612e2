// The party that a cell names: one parser over the kinds that the cell allows.
ghost use Rattle.std.specs.Prelude.{◌≡◌};
ghost use Rattle.ident.specs.Party.{allowed7, allowed12, allowed57, allowed59, named, allows, part_of, part_right, is_person, person_shaped, party_of, is_lei, is_mic, is_concat, is_nidn, is_malformed};

use crate::codes::{lei_shaped, mic_shaped};
use crate::persons::{concat_shaped, number_shaped};
use text::Class;

// A kind, with the place in the cell where the part after its colon starts.
#[derive(Clone, Copy)]
pub enum Identifier {
    Intc,
    Nore,
    Lei(usize),
    Ccpt(usize),
    Concat(usize),
    Nidn(usize),
    Mic(usize),
    Algo(usize),
    Malformed,
}

#[derive(Clone, Copy)]
pub struct Party {
    pub identifier: Identifier,
    // a person identifier of the person shape
    pub shaped: bool,
}

// The kinds that a cell allows.
#[derive(Clone, Copy)]
pub struct Allowed {
    pub intc: bool,
    pub nore: bool,
    pub lei: bool,
    pub ccpt: bool,
    pub concat: bool,
    pub nidn: bool,
    pub mic: bool,
    pub algo: bool,
    // without the person shape a person identifier is malformed
    pub shaped: bool,
}

// Cells 7 and 16.
pub fn allowed7() -> Allowed
    ensures { result ≡ allowed7 }
{
    Allowed {
        intc: true,
        nore: false,
        lei: true,
        ccpt: true,
        concat: true,
        nidn: true,
        mic: true,
        algo: false,
        shaped: false,
    }
}

// Cells 12 and 21.
pub fn allowed12() -> Allowed
    ensures { result ≡ allowed12 }
{
    Allowed {
        intc: false,
        mic: false,
        ..allowed7()
    }
}

pub fn allowed57() -> Allowed
    ensures { result ≡ allowed57 }
{
    Allowed {
        intc: false,
        nore: false,
        lei: false,
        ccpt: true,
        concat: true,
        nidn: true,
        mic: false,
        algo: true,
        shaped: true,
    }
}

pub fn allowed59() -> Allowed
    ensures { result ≡ allowed59 }
{
    Allowed {
        nore: true,
        ..allowed57()
    }
}

// The kind that the cell's word names, allowed or not. Eight tests against constant words, which a compiler folds; a table of words and kinds
// would need a walk and a test for whole words besides, and is no plainer.
#[tactic(auto, unfolding(crate::specs::Party::named))]
fn named(s: &[u8]) -> Identifier
    ensures { result ≡ named s.now }
{
    if text::same(s, b"INTC") {
        return Identifier::Intc;
    }
    if text::same(s, b"NORE") {
        return Identifier::Nore;
    }
    if text::starts_with(s, b"LEI:") {
        return Identifier::Lei(4);
    }
    if text::starts_with(s, b"CCPT:") {
        return Identifier::Ccpt(5);
    }
    if text::starts_with(s, b"CONCAT:") {
        return Identifier::Concat(7);
    }
    if text::starts_with(s, b"NIDN:") {
        return Identifier::Nidn(5);
    }
    if text::starts_with(s, b"MIC:") {
        return Identifier::Mic(4);
    }
    if text::starts_with(s, b"ALGO:") {
        return Identifier::Algo(5);
    }
    Identifier::Malformed
}

// One field a kind, so that no two arms can be one.
fn allows(allowed: Allowed, identifier: Identifier) -> bool
    ensures { result ≡ allows allowed identifier }
{
    match identifier {
        Identifier::Intc => allowed.intc,
        Identifier::Nore => allowed.nore,
        Identifier::Lei(_) => allowed.lei,
        Identifier::Ccpt(_) => allowed.ccpt,
        Identifier::Concat(_) => allowed.concat,
        Identifier::Nidn(_) => allowed.nidn,
        Identifier::Mic(_) => allowed.mic,
        Identifier::Algo(_) => allowed.algo,
        Identifier::Malformed => false,
    }
}

// What follows the colon, as a cell of its own: a slice that starts within the cell.
pub fn part_of(s: &[u8], identifier: Identifier) -> &[u8]
    ensures { result.now ≡ part_of identifier s.now }
{
    match identifier {
        Identifier::Lei(at)
        | Identifier::Ccpt(at)
        | Identifier::Concat(at)
        | Identifier::Nidn(at)
        | Identifier::Mic(at)
        | Identifier::Algo(at) => text::rest(s, at),
        Identifier::Intc | Identifier::Nore | Identifier::Malformed => text::head(s, 0),
    }
}

fn part_right(part: &[u8], identifier: Identifier) -> bool
    ensures { result ≡ part_right identifier part.now }
{
    match identifier {
        Identifier::Intc | Identifier::Nore => true,
        Identifier::Lei(_) => lei_shaped(part),
        Identifier::Ccpt(_) | Identifier::Concat(_) | Identifier::Nidn(_) => {
            text::run_of(part, Class::Printable, 1, 35)
        }
        Identifier::Mic(_) => mic_shaped(part),
        Identifier::Algo(_) => text::run_of(part, Class::Alphanumeric, 1, 50),
        Identifier::Malformed => false,
    }
}

pub fn is_person(identifier: Identifier) -> bool
    ensures { result ≡ is_person identifier }
{
    matches!(
        identifier,
        Identifier::Ccpt(_) | Identifier::Concat(_) | Identifier::Nidn(_)
    )
}

// The person shape of the part; none but a person identifier has it.
pub fn person_shaped(part: &[u8], identifier: Identifier) -> bool
    ensures { result ≡ person_shaped identifier part.now }
{
    match identifier {
        Identifier::Ccpt(_) | Identifier::Nidn(_) => number_shaped(part),
        Identifier::Concat(_) => concat_shaped(part),
        _ => false,
    }
}

// Anything that is not allowed, or whose part is not well formed, is malformed. The person shape is asked once, for the cells that want it and
// for those that hand it on.
pub fn parse_party(s: &[u8], allowed: Allowed) -> Party
    ensures { result ≡ party_of allowed s.now }
{
    let identifier = named(s);
    let part = part_of(s, identifier);
    if !(allows(allowed, identifier) & part_right(part, identifier)) {
        return Party {
            identifier: Identifier::Malformed,
            shaped: false,
        };
    }
    let shaped = person_shaped(part, identifier);
    if !(!allowed.shaped | !is_person(identifier) | shaped) {
        return Party {
            identifier: Identifier::Malformed,
            shaped: false,
        };
    }
    Party { identifier, shaped }
}

// The kinds that rules and forms ask for.
pub fn is_lei(identifier: Identifier) -> bool
    ensures { result ≡ is_lei identifier }
{
    matches!(identifier, Identifier::Lei(_))
}

pub fn is_mic(identifier: Identifier) -> bool
    ensures { result ≡ is_mic identifier }
{
    matches!(identifier, Identifier::Mic(_))
}

pub fn is_concat(identifier: Identifier) -> bool
    ensures { result ≡ is_concat identifier }
{
    matches!(identifier, Identifier::Concat(_))
}

pub fn is_nidn(identifier: Identifier) -> bool
    ensures { result ≡ is_nidn identifier }
{
    matches!(identifier, Identifier::Nidn(_))
}

pub fn is_malformed(identifier: Identifier) -> bool
    ensures { result ≡ is_malformed identifier }
{
    matches!(identifier, Identifier::Malformed)
}
