// What the cells of a line say: each is read once, and what was read is handed on.
ghost use Rattle.std.specs.Prelude.{◌≡◌};
ghost use Rattle.cells.specs.Cells.{cell};
ghost use Rattle.forms.specs.Read.{read_of};

use amount::{Price, Quantity};
use baskets::Underlying;
use calendar::Moment;
use cells::SplitLine;
use ident::Party;

// The parties of 7, 12, 16, 21, 57 and 59, the dates, the moment of 28, the quantity of 30, the price of 33, the legs of 47.
#[derive(Clone, Copy)]
pub struct Read {
    pub buyer: Party,
    pub buyer_for: Party,
    pub seller: Party,
    pub seller_for: Party,
    pub investor: Party,
    pub executor: Party,
    pub date11: Option<u32>,
    pub date15: Option<u32>,
    pub date20: Option<u32>,
    pub date24: Option<u32>,
    pub date54: Option<u32>,
    pub date55: Option<u32>,
    pub moment: Option<Moment>,
    pub quantity: Quantity,
    pub price: Price,
    pub underlying: Underlying,
}

// A line of 65 cells with what was read of them.
#[derive(Clone, Copy)]
pub struct ReadLine<'t, 'a> {
    pub split: &'t SplitLine<'a>,
    pub read: Read,
    pub ghost told: { read ≡ read_of split.now.line.now },
}

impl<'t, 'a> ReadLine<'t, 'a> {
    pub fn cell(&self, f: usize) -> &'a [u8]
        ensures { result.now ≡ cell self.now.split.now.line.now f }
    {
        self.split.cell(f)
    }
}

// Each cell is read by its own parser.
#[tactic(auto, unfolding(crate::specs::Read::read_of))]
fn read_each(split: &SplitLine) -> Read
    ensures { result ≡ read_of split.now.line.now }
{
    Read {
        buyer: ident::parse_party(split.cell(7), ident::allowed7()),
        buyer_for: ident::parse_party(split.cell(12), ident::allowed12()),
        seller: ident::parse_party(split.cell(16), ident::allowed7()),
        seller_for: ident::parse_party(split.cell(21), ident::allowed12()),
        investor: ident::parse_party(split.cell(57), ident::allowed57()),
        executor: ident::parse_party(split.cell(59), ident::allowed59()),
        date11: calendar::parse_date(split.cell(11)),
        date15: calendar::parse_date(split.cell(15)),
        date20: calendar::parse_date(split.cell(20)),
        date24: calendar::parse_date(split.cell(24)),
        date54: calendar::parse_date(split.cell(54)),
        date55: calendar::parse_date(split.cell(55)),
        moment: calendar::parse_moment(split.cell(28)),
        quantity: amount::parse_quantity(split.cell(30)),
        price: amount::parse_price(split.cell(33)),
        underlying: baskets::parse_underlying(split.cell(47)),
    }
}

pub fn read_cells<'t, 'a>(split: &'t SplitLine<'a>) -> ReadLine<'t, 'a>
    ensures same { result.split.now.line.now ≡ split.now.line.now }
    ensures read { result.read ≡ read_of split.now.line.now }
{
    let read = read_each(split);
    ReadLine { split, read }
}
