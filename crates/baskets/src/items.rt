// Items, and baskets of them.
ghost use Rattle.std.specs.Prelude.{◌≡◌};
ghost use Rattle.baskets.specs.Items.{in_front, item_in, items_in, basket_in};
ghost use Rattle.baskets.specs.Told.{broken_off, between, value_told, item_told, part_told};

// What the items of a basket hold.
#[derive(Clone, Copy)]
pub enum Holds {
    Isin,
    Term,
}

// The value in front of a text: how long it is, 0 where there is none, and whether its check digit is right.
//
// No Option, since `right` is told where there is no value too: false of an ISIN, true of a term.
#[derive(Clone, Copy)]
struct Value {
    size: usize,
    right: bool,
}

// An index and a value in front of a text.
//
// `good` stays a flag and no Option: index, check digit and size are told of what is not well formed too, as far as it was read.
#[derive(Clone, Copy)]
struct Item {
    good: bool,
    index: u64,
    right: bool,
    size: usize,
}

// What stands in front of a text: whether it is well formed, whether all its check digits are right, and how many bytes it takes.
//
// `good` stays a flag and no Result: `underlying_of` tells of the check digits in what is not well formed too, and reads a second leg
// behind a first that broke off, so both cases would hold the same two fields and be handed on alike.
#[derive(Clone, Copy)]
pub struct Part {
    pub good: bool,
    pub right: bool,
    pub size: usize,
}

// What is not well formed, as far as it was read.
pub fn broken_off(right: bool, size: usize) -> Part
    ensures { result ≡ broken_off right size }
{
    Part {
        good: false,
        right,
        size,
    }
}

// How many bytes in front lie from `least` to `most`.
#[tactic(auto, using(crate::proofs::ItemLaws::front_counted))]
pub fn in_front(s: &[u8], least: u8, most: u8) -> usize
    ensures { result ≡ in_front (between least most) s.now }
{
    s.iter().take_while(|&&b| least <= b && b <= most).count()
}

#[tactic(auto, unfolding(text::specs::Shape::shape))]
fn isin_in(s: &[u8]) -> Value
    ensures { result ≡ value_told Holds.Isin s.now }
{
    let isin = text::head(s, 12);
    if !ident::isin_shaped(isin) {
        return Value {
            size: 0,
            right: false,
        };
    }
    Value {
        size: 12,
        right: ident::isin_remainder(isin) == 0,
    }
}

fn term_in(s: &[u8]) -> Value
    ensures { result ≡ value_told Holds.Term s.now }
{
    let n = in_front(text::rest(s, 5), b'0', b'9');
    if !(text::one_of(text::head(s, 5), b"DAYS#WEEK#MNTH#YEAR#", 5) & ((1 <= n) & (n <= 3))) {
        return Value {
            size: 0,
            right: true,
        };
    }
    Value {
        size: 5 + n,
        right: true,
    }
}

// One match here, and no type parameter or closure for the value that is read: it would stand on each of the six functions up to
// `legs_in`, and the definitions speak of `Holds` as well.
fn value_in(s: &[u8], holds: Holds) -> Value
    ensures { result ≡ value_told holds s.now }
{
    match holds {
        Holds::Isin => isin_in(s),
        Holds::Term => term_in(s),
    }
}

// An index of 1 to 3 digits, a colon, spaces, a value.
fn item_in(s: &[u8], holds: Holds) -> Item
    ensures { result ≡ item_told holds (item_in holds s.now) }
{
    let n = in_front(s, b'0', b'9');
    let at = n + 1 + in_front(text::rest(s, n + 1), b' ', b' ');
    let value = value_in(text::rest(s, at), holds);
    Item {
        good: (1 <= n) & (n <= 3) & (text::byte_at(s, n) == b':') & (value.size != 0),
        index: text::number_in(text::head(s, n)),
        right: value.right,
        size: at + value.size,
    }
}

// Up to 16 items whose indexes rise, and the closing brace. Each must have an index of at least `least`.
fn items_in(s: &[u8], holds: Holds) -> Part
    ensures { result ≡ part_told holds (items_in holds 16 0 s.now) }
{
    let mut at = 0;
    let mut least = 0;
    let mut right = true;
    for _ in 0..16usize {
        let text = text::rest(s, at);
        let item = item_in(text, holds);
        if !(item.good & (least <= item.index)) {
            return broken_off(right, at);
        }
        right &= item.right;
        at += item.size;
        match text::rest(text, item.size) {
            [b'}', ..] => {
                return Part {
                    good: true,
                    right,
                    size: at + 1,
                };
            }
            [b',', behind @ ..] => at += 1 + in_front(behind, b' ', b' '),
            _ => return broken_off(right, at),
        }
        least = item.index + 1;
    }
    broken_off(right, at)
}

// Braces around items.
pub fn basket_in(s: &[u8], holds: Holds) -> Part
    ensures { result ≡ part_told holds (basket_in holds s.now) }
{
    let [b'{', items @ ..] = s else {
        return broken_off(true, 0);
    };
    let items = items_in(items, holds);
    Part {
        size: 1 + items.size,
        ..items
    }
}
