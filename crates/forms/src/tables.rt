// The forms that the paper names, each with the cells that have it.
#[derive(Clone, Copy)]
pub enum Form {
    // 1
    ReportStatus,
    // 2, 3
    Reference,
    // 4, 6, 26, 27
    Lei,
    // 5, 25, 64, 65
    Truth,
    // 7, 16
    Counterparty,
    // 12, 21
    Decider,
    // 8, 17, 37, 58, 60
    Country,
    // 9, 10, 13, 14, 18, 19, 22, 23
    Name,
    // 11, 15, 20, 24, 54, 55
    Date,
    // 28
    Moment,
    // 29
    Capacity,
    // 30
    Quantity,
    // 31, 34, 39, 44, 52
    Currency,
    // 32
    Change,
    // 33, 51
    Price,
    // 35
    Amount,
    // 36
    Venue,
    // 38
    SignedAmount,
    // 40
    ComplexTrade,
    // 41
    Isin,
    // 42
    InstrumentName,
    // 43
    Cfi,
    // 45
    SecondCurrency,
    // 46
    Multiplier,
    // 47
    Underlying,
    // 48, and 49 where 47 is malformed
    Printed,
    // 49 where 47 is SWAP:, where it is OTHR:, and where it is blank
    SwapTerms,
    OtherTerms,
    NoTerms,
    // 50
    OptionKind,
    // 53
    OptionStyle,
    // 56
    Delivery,
    // 57
    Investor,
    // 59
    Executor,
    // 61
    Waiver,
    // 62
    ShortSale,
    // 63
    PostTrade,
}
