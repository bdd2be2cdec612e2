// What the forms ask of a cell that is not blank, where a formula is longer than its place allows.
#![tactic(auto, unfolding(crate::specs::Forms::holds))]

ghost use Rattle.std.specs.Prelude.{◌≡◌};
ghost use Rattle.baskets.specs.Underlying.{underlying_of};
ghost use Rattle.forms.specs.Forms.{holds, terms_of_kind, terms_by};

use crate::tables::Form;
use baskets::Kind;
use text::Class;

pub fn is_status(s: &[u8]) -> bool
    ensures { result ≡ holds Form.ReportStatus s.now }
{
    text::same(s, b"NEW") | text::same(s, b"CXL")
}

pub fn is_truth(s: &[u8]) -> bool
    ensures { result ≡ holds Form.Truth s.now }
{
    text::same(s, b"TRUE") | text::same(s, b"FALSE")
}

fn terms_of_kind(s: &[u8], kind: Kind) -> bool
    ensures { result ≡ holds (terms_of_kind kind) s.now }
{
    match kind {
        Kind::Swap | Kind::Other => baskets::terms_fit(s, kind),
        Kind::Malformed => text::run_of(s, Class::Printable, 1, 400),
    }
}

// Cell 49, by the cell 47 and its kind.
pub fn is_terms(s: &[u8], underlying: &[u8], kind: Kind) -> bool
    requires { kind ≡ (underlying_of underlying.now).kind }
    ensures { result ≡ holds (terms_by underlying.now) s.now }
{
    (underlying.len() != 0) & terms_of_kind(s, kind)
}

// Three capitals behind FX: or INTRST:.
pub fn is_second_currency(s: &[u8]) -> bool
    ensures { result ≡ holds Form.SecondCurrency s.now }
{
    (text::starts_with(s, b"FX:") & text::run_of(text::rest(s, 3), Class::Capital, 3, 3))
        | (text::starts_with(s, b"INTRST:") & text::run_of(text::rest(s, 7), Class::Capital, 3, 3))
}
