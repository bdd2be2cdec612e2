// What is printed for the day's summary: a line for each record, with its counts and the codes that lines have.
ghost use Rattle.std.specs.Prelude.{◌≡◌, ◌*◌, ◌≤◌, [], length};
ghost use Rattle.buffer.specs.Text.{added};
ghost use Rattle.verdict.specs.Codes.{codes};
ghost use Rattle.table.specs.Rows.{record_count};
ghost use Rattle.printing.specs.Printed.{spaced};
ghost use Rattle.printing.specs.Report.{count_text, count_texts, headings_of, record_text, part_of, longest_count, KeptWithin, Put};

use crate::{push_number, push_spaced};
use buffer::Text;
use summary::Record;
use table::{RECORD_COUNT, Table};
use verdict::CODE_COUNT;

// The table of codes is verdict's own; it lists them by words that have a bit for each code and no other.
fn all_codes() -> [u16; CODE_COUNT]
    ensures { result ≡ codes }
{
    let mut all = [0u16; CODE_COUNT];
    verdict::list_by_words([u64::MAX, u64::MAX, 8191], &mut all);
    all
}

// A code that no line has is left out.
fn push_counted<const N: usize>(out: &mut Text<N>, code: u16, count: u32)
    ensures { out.new ≡ added N out.old (count_text code count) }
{
    if count == 0 {
        return;
    }
    push_spaced(out, u64::from(code));
    out.push(b':');
    push_number(out, u64::from(count));
}

fn push_counts<const N: usize>(out: &mut Text<N>, codes: &[u16], counts: &[u32])
    requires { length codes.now ≡ length counts.now }
    ensures { KeptWithin (longest_count * length codes.now) N out.old (count_texts codes.now counts.now) out.new }
{
    for (&code, &count) in codes.iter().zip(counts) {
        push_counted(out, code, count);
    }
}

// How many lines there are under each heading.
fn push_headings<const N: usize>(out: &mut Text<N>, r: &Record)
    ensures { out.new ≡ added N out.old (spaced (headings_of r.now)) }
{
    push_spaced(out, u64::from(r.accepted));
    push_spaced(out, u64::from(r.cancelled));
    push_spaced(out, u64::from(r.found));
    push_spaced(out, u64::from(r.full));
    push_spaced(out, u64::from(r.refused));
}

// A line for a record; the name is the entity's, or a word of that length at most.
fn push_record<const N: usize>(out: &mut Text<N>, name: &[u8], r: &Record)
    requires { length name.now ≤ 20 }
    ensures { Put N out.old (record_text name.now r.now) out.new }
{
    out.push_all(name);
    push_headings(out, r);
    push_counts(out, &all_codes(), &r.codes);
    out.push(b'\n');
}

// The line of a row of the table. A free record has none.
pub fn push_row<const N: usize>(out: &mut Text<N>, table: &Table, i: usize)
    ensures { Put N out.old (part_of table.now i) out.new }
{
    let r = table.record_at(i);
    if RECORD_COUNT <= i {
        return push_record(out, b"common", &r);
    }
    if r.entity[0] == 0 {
        return;
    }
    push_record(out, &r.entity, &r);
}

// The same whatever the text kept before.
pub fn put_row<const N: usize>(out: &mut Text<N>, table: &Table, i: usize)
    requires { i ≤ record_count }
    ensures { Put N [] (part_of table.now i) out.new }
{
    out.clear();
    push_row(out, table, i);
}
