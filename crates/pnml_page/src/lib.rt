#![tactic(auto)]

// The elements of a text in PNML, and whether it is of the profile that is taken.
ghost use Rattle.std.specs.Prelude.{◌≡◌};
ghost use Rattle.pnml_text.specs.Rest.{rest_at};
ghost use Rattle.pnml_page.specs.Steps.{Holds, after, content, element, held, inside, label, most, net, read_whole, page, place, tail, transition};
ghost use Rattle.pnml_page.specs.Meant.{HasEnds, MayRead, Reads};

use pnml_text::{digits, id, number, spaces, word};

// A number, and the position after what holds it.
#[derive(Clone, Copy, Debug, PartialEq, Eq)]
pub struct Numbered {
    pub number: usize,
    pub next: usize,
}

// In a label: one text of digits. From the label's opening tag on to after its closing one.
fn held(text: &[u8], at: usize, stop: &[u8]) -> Numbered
    ensures { Holds text.now result (held stop.now (rest_at text.now at)) }
{
    let inside = spaces(text, at);
    let first = word(text, inside, b"<text>");
    let last = digits(text, first);
    let ended = word(text, last, b"</text>");
    let before = spaces(text, ended);
    let after = word(text, before, stop);
    let next = spaces(text, after);
    Numbered {
        number: number(text, first),
        next,
    }
}

// At most one label, from one word to another; where there is none, `missing` stands for its number.
fn label(text: &[u8], at: usize, start: &[u8], stop: &[u8], missing: usize) -> Numbered
    ensures { Holds text.now result (label start.now stop.now missing (rest_at text.now at)) }
{
    let inside = word(text, at, start);
    if text.len() < inside {
        return Numbered {
            number: missing,
            next: at,
        };
    }
    held(text, inside, stop)
}

// The end of a place or an arc, from the quote after its last attribute on.
fn tail(
    text: &[u8],
    at: usize,
    start: &[u8],
    stop: &[u8],
    finish: &[u8],
    missing: usize,
) -> Numbered
    ensures { Holds text.now result (tail start.now stop.now finish.now missing (rest_at text.now at)) }
{
    let closed = word(text, at, b"\"/>");
    if closed <= text.len() {
        return Numbered {
            number: missing,
            next: closed,
        };
    }
    let opened = word(text, at, b"\">");
    let inside = spaces(text, opened);
    let n = label(text, inside, start, stop, missing);
    let next = word(text, n.next, finish);
    Numbered {
        number: n.number,
        next,
    }
}

// A place, from its id on.
pub fn place(text: &[u8], at: usize) -> Numbered
    ensures { Holds text.now result (place (rest_at text.now at)) }
{
    let end = id(text, at);
    tail(
        text,
        end,
        b"<initialMarking>",
        b"</initialMarking>",
        b"</place>",
        0,
    )
}

// A transition, from its id on.
fn transition(text: &[u8], at: usize) -> usize
    ensures { rest_at text.now result ≡ transition (rest_at text.now at) }
{
    let end = id(text, at);
    let closed = word(text, end, b"\"/>");
    if closed <= text.len() {
        return closed;
    }
    let opened = word(text, end, b"\">");
    let inside = spaces(text, opened);
    word(text, inside, b"</transition>")
}

// The positions of an arc's ends, its weight, and the position after it.
#[derive(Clone, Copy, Debug, PartialEq, Eq)]
pub struct Ends {
    pub source: usize,
    pub target: usize,
    pub number: usize,
    pub next: usize,
}

// An arc, from its id on.
pub fn arc(text: &[u8], at: usize) -> Ends
    ensures { HasEnds text.now result (rest_at text.now at) }
{
    let named = id(text, at);
    let source = word(text, named, b"\" source=\"");
    let from = id(text, source);
    let target = word(text, from, b"\" target=\"");
    let to = id(text, target);
    let n = tail(text, to, b"<inscription>", b"</inscription>", b"</arc>", 1);
    Ends {
        source,
        target,
        number: n.number,
        next: n.next,
    }
}

// An element of the page: the positions of its id and of its ends, and its number.
#[derive(Clone, Copy, Debug, PartialEq, Eq)]
pub enum Element {
    Place(usize, usize),
    Transition(usize),
    Arc(usize, usize, usize, usize),
}

// An element, and the position after it.
#[derive(Clone, Copy, Debug, PartialEq, Eq)]
pub struct Found {
    pub element: Element,
    pub next: usize,
}

// The element that starts at a position. The position after it is past the text where it is of no kind or does not end.
pub fn element_at(text: &[u8], at: usize) -> Found
    ensures { Reads text.now result (element (rest_at text.now at)) }
{
    let n = text.len();
    let a = word(text, at, b"<place id=\"");
    if a <= n {
        let held = place(text, a);
        return Found {
            element: Element::Place(a, held.number),
            next: held.next,
        };
    }
    let a = word(text, at, b"<transition id=\"");
    if a <= n {
        let next = transition(text, a);
        return Found {
            element: Element::Transition(a),
            next,
        };
    }
    let a = word(text, at, b"<arc id=\"");
    let ends = arc(text, a);
    Found {
        element: Element::Arc(a, ends.source, ends.target, ends.number),
        next: ends.next,
    }
}

// The element at a position, where one stands there.
pub fn whole_element_at(text: &[u8], at: usize) -> Option<Found>
    ensures { MayRead text.now result (element (rest_at text.now at)) }
{
    let found = element_at(text, at);
    if text.len() < found.next {
        return None;
    }
    Some(found)
}

// How many elements are read at most: a text of 65,536 bytes has fewer.
pub const MOST: usize = 4370;

// The position after the elements of the page.
fn elements_end(text: &[u8], at: usize) -> usize
    ensures { rest_at text.now result ≡ (content most (rest_at text.now at)).rest }
{
    let mut a = at;
    for _ in 0..MOST {
        let Some(found) = whole_element_at(text, a) else {
            return a;
        };
        a = spaces(text, found.next);
    }
    a
}

// The position of the net's id.
pub fn net(text: &[u8]) -> usize
    ensures { rest_at text.now result ≡ net (rest_at text.now 0) }
{
    let first = spaces(text, 0);
    let opened = word(
        text,
        first,
        b"<pnml xmlns=\"http://www.pnml.org/version-2009/grammar/pnml\">",
    );
    let inside = spaces(text, opened);
    word(text, inside, b"<net id=\"")
}

// The position of the page's id.
pub fn page(text: &[u8]) -> usize
    ensures { rest_at text.now result ≡ page (rest_at text.now 0) }
{
    let a = net(text);
    let named = id(text, a);
    let opened = word(
        text,
        named,
        b"\" type=\"http://www.pnml.org/version-2009/grammar/ptnet\">",
    );
    let inside = spaces(text, opened);
    word(text, inside, b"<page id=\"")
}

// The position of the first element.
pub fn inside(text: &[u8]) -> usize
    ensures { rest_at text.now result ≡ inside (rest_at text.now 0) }
{
    let a = page(text);
    let named = id(text, a);
    let opened = word(text, named, b"\">");
    spaces(text, opened)
}

// After the elements: to the end of the text.
fn after(text: &[u8], at: usize) -> usize
    ensures { rest_at text.now result ≡ after (rest_at text.now at) }
{
    let a = word(text, at, b"</page>");
    let b = spaces(text, a);
    let c = word(text, b, b"</net>");
    let d = spaces(text, c);
    let e = word(text, d, b"</pnml>");
    spaces(text, e)
}

// Is the text of the profile?
pub fn of_profile(text: &[u8]) -> bool
    ensures { result ≡ read_whole text.now }
{
    let first = inside(text);
    let end = elements_end(text, first);
    let last = after(text, end);
    last == text.len()
}
