// What a cell gives of 3307, 3308 and 3309.
ghost use Rattle.std.specs.Prelude.{◌≡◌};
ghost use Rattle.polish.specs.Cells.{is_polish, number_gives, polish_of};

use crate::births::{birth_day, is_birth};
use crate::numbers::{nip_right, pesel_right};
use ident::Party;
use text::Class;

#[derive(Clone, Copy)]
pub struct Polish {
    // 3307, 3308 and 3309
    pub form: bool,
    pub check: bool,
    pub birth: bool,
}

// A NIDN of the person shape, with country PL.
#[tactic(auto, unfolding(crate::specs::Cells::is_polish))]
fn is_polish(party: Party, s: &[u8]) -> bool
    ensures { result ≡ is_polish party s.now }
{
    let kind = party.identifier;
    ident::is_nidn(kind) & party.shaped & text::starts_with(ident::part_of(s, kind), b"PL")
}

// Of what follows PL.
#[tactic(auto, unfolding(crate::specs::Cells::number_gives, crate::specs::Cells::neither, crate::specs::Cells::wrong_digit, crate::specs::Cells::other_day))]
fn number_gives(n: &[u8], dated: bool, day: u32) -> Polish
    ensures { result ≡ number_gives n.now dated day }
{
    let pesel = text::run_of(n, Class::Digit, 11, 11);
    let nip = text::run_of(n, Class::Digit, 10, 10);
    Polish {
        form: !(pesel | nip),
        check: (pesel & !pesel_right(n)) | (nip & !nip_right(n)),
        birth: pesel & (!is_birth(n) | (dated & (birth_day(n) != day))),
    }
}

// Of a cell, by the party that was read of it. `dated` says that its date cell is present, which writes `day`: a present
// one may write no day, so that an Option of the day would say less. Few cells hold a Polish
// number, so the others are let go at once.
#[tactic(auto, unfolding(crate::specs::Cells::polish_of, crate::specs::Cells::form_wrong, crate::specs::Cells::check_wrong, crate::specs::Cells::born_wrong, crate::specs::Cells::number_gives))]
pub fn polish_of(party: Party, s: &[u8], dated: bool, day: u32) -> Polish
    ensures { result ≡ polish_of party s.now dated day }
{
    if !is_polish(party, s) {
        return Polish {
            form: false,
            check: false,
            birth: false,
        };
    }
    let kind = party.identifier;
    number_gives(text::rest(ident::part_of(s, kind), 2), dated, day)
}
