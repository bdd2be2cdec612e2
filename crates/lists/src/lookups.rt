// The look-ups that the rules ask for, with their answers named.
ghost use Rattle.std.specs.Prelude.{◌≡◌};
ghost use Rattle.lists.specs.Lookups.{lei_rows, country_known, currency_rows, venue_rows, instrument_rows};

use crate::rows::{Countries, Currencies, Instruments, Leis, Venues};
use crate::scan::list_says;

// Some row serves on the day: with status 1, 3 or 4; with any of 1 to 4; with any of these, whenever it was registered.
#[derive(Clone, Copy)]
pub struct LeiRows {
    pub unlapsed: bool,
    pub any: bool,
    pub whenever: bool,
}

#[derive(Clone, Copy)]
pub struct CurrencyRows {
    pub current: bool,
    pub pre_euro: bool,
}

// An EEA venue, a systematic internaliser, a venue outside the EEA.
#[derive(Clone, Copy)]
pub struct VenueRows {
    pub kind1: bool,
    pub kind2: bool,
    pub kind3: bool,
}

// Some row on the day: whatever its CFI, one that matches a pattern of 330, one that matches a pattern of 350.
#[derive(Clone, Copy)]
pub struct InstrumentRows {
    pub listed: bool,
    pub debt: bool,
    pub bond: bool,
}

pub fn lei_rows(list: &[u8], key: &[u8], day: u32) -> LeiRows
    ensures { result ≡ lei_rows list.now key.now day }
{
    let says = list_says::<Leis>(list, key, day);
    LeiRows {
        unlapsed: says.first,
        any: says.second,
        whenever: says.third,
    }
}

pub fn country_known(list: &[u8], key: &[u8], day: u32) -> bool
    ensures { result ≡ country_known list.now key.now day }
{
    list_says::<Countries>(list, key, day).first
}

pub fn currency_rows(list: &[u8], key: &[u8], day: u32) -> CurrencyRows
    ensures { result ≡ currency_rows list.now key.now day }
{
    let says = list_says::<Currencies>(list, key, day);
    CurrencyRows {
        current: says.first,
        pre_euro: says.second,
    }
}

pub fn venue_rows(list: &[u8], key: &[u8], day: u32) -> VenueRows
    ensures { result ≡ venue_rows list.now key.now day }
{
    let says = list_says::<Venues>(list, key, day);
    VenueRows {
        kind1: says.first,
        kind2: says.second,
        kind3: says.third,
    }
}

pub fn instrument_rows(list: &[u8], key: &[u8], day: u32) -> InstrumentRows
    ensures { result ≡ instrument_rows list.now key.now day }
{
    let says = list_says::<Instruments>(list, key, day);
    InstrumentRows {
        listed: says.first,
        debt: says.second,
        bond: says.third,
    }
}
