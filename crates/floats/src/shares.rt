// Confidences by their bits (5.4), each with its percent (5.5), of more columns suited than there are, and of none.
use sheet::confidence::{freed, percent, rebuilt, suited_share};
use sheet::row::{Mode, Row, Source, words};
use streams::Output;

// Columns suited, of so many: of one, of the largest percent, of what is cut to it, and of an infinity and a NaN.
const SHARES: [(u16, u16); 5] = [(1, 1), (51, 20), (3, 1), (1, 0), (0, 0)];

// As a row has them.
fn bits(confidence: f32) -> u64 {
    let row = words(Row {
        offset: 0,
        consumed: 0,
        id: None,
        source: Source::Scan,
        confidence,
        mode: Mode::Plain,
        table: 0,
        padded: false,
    });
    row[6]
}

fn say(said: Output, name: &[u8], confidence: f32) -> Output {
    let said = said.say(name).say_hex(bits(confidence), 8);
    said.say(b" ").say_decimal(percent(confidence))
}

fn say_share(said: Output, suited: u16, columns: u16) -> Output {
    let whole = suited_share(suited, columns);
    let said = said.say(b"share ").say_decimal(suited as u64);
    let said = said.say(b" of ").say_decimal(columns as u64);
    let said = say(said, b": ", whole);
    let said = say(said, b", freed ", freed(whole));
    say(said, b", rebuilt ", rebuilt(whole)).say(b"\n")
}

pub(crate) fn say_all(said: Output) -> Output {
    SHARES
        .iter()
        .fold(said, |said, share| say_share(said, share.0, share.1))
}
