// From text to the bytes of the items that it spells, in one pass. Where bytes no longer fit into the buffer it goes on without
// writing, so that sizes stay exact.
#![tactic(auto)]

ghost use Rattle.std.specs.Prelude.{◌≡◌, ◌+◌, ◌-◌, ◌≤◌, length, drop};
ghost use Rattle.cbor.specs.Decode.{most_bytes};
ghost use Rattle.notation.specs.Tokens.{bracket, brace, embedding};
ghost use Rattle.notation.specs.Form.{one, reads};
ghost use Rattle.notation.specs.Reading.{marked, sequence};
ghost use Rattle.encoding.specs.ReadAnswers.{behind_opener, tagged_read, indicator_for, Room, Opened, Bracketed, ReadTold, of_item, of_closed, of_tagged};
ghost use Rattle.reader.specs.OneItem.{is_leaf, LevelAt, Flat, TagMade};
ghost use Rattle.reader.specs.Several.{as_seen, several_read, StrayTold};

use closers::{Closer, counted, starts, turned};
use closing::{Follow, first, followed};
use encoding::answer::{MadeItem, done, listed, refuse, strayed};
use encoding::close::{enclose, endless, finish, finish_short, is_short};
use encoding::heads::{leaf, put_head};
use encoding::room::room_for;
use head::initial::{ARRAY, MAP};
use leaf_answer::{Found, LeafRead};
use leaf_reader::{odd_leaf, read_leaf, read_odd};
use opening::{Opener, opening_at, opens_bare};
use refusal::limit::MOST_LEVELS;
use refusal::{Refusal, RefusalKind};
use saturating::sum;
use scanning::class::OPEN_PAREN;
use scanning::scan::TextCursor;
use string_reader::{chunked, literal};
use token::indicator::{INDEFINITE, NONE};
use token::kind::{BYTES, NO_TOKEN, SIMPLE};
use tokens::cut::next_token;

// The initial bytes of an array and of a map whose lengths are indefinite.
const ENDLESS_ARRAY: u8 = 0x9f;

const ENDLESS_MAP: u8 = 0xbf;

fn is_leaf(found: Found) -> bool
    ensures { result ≡ is_leaf found }
{
    match found {
        Found::Leaf => true,
        Found::Tag => false,
        Found::Odd => false,
        Found::Nothing => false,
    }
}

// The same answer, made anew: an answer that is handed on whole is copied, and the copy waits for it.
fn again(a: Result<MadeItem, Refusal>) -> Result<MadeItem, Refusal>
    ensures { result ≡ a }
{
    match a {
        Err(e) => {
            let kind = e.kind;
            Err(Refusal {
                kind,
                place: e.place,
            })
        }
        Ok(m) => Ok(MadeItem {
            next: m.next,
            size: m.size,
            count: m.count,
            indicator: m.indicator,
            binary: m.binary,
            length: m.length,
        }),
    }
}

// A refusal at the next token, which may not stand there.
fn stray(text: &[u8], from: usize, levels: usize) -> Result<MadeItem, Refusal>
    requires { from ≤ length (marked text.now) }
    ensures { StrayTold text.now from levels result }
{
    strayed(levels, next_token(text, from))
}

// An item that opens no level, by its token.
fn whole(
    text: &[u8],
    from: usize,
    levels: usize,
    buf: &mut [u8],
    pos: usize,
) -> Result<MadeItem, Refusal>
    requires flat { Flat text.now from levels }
    requires room { Room text.now from pos }
    ensures { ReadTold of_item text.now buf.old buf.new (length (marked text.now) - from) pos result (reads (one levels) (drop from (marked text.now))) }
{
    let t = next_token(text, from);
    let kind = t.kind;
    if kind == NO_TOKEN {
        return strayed(levels, t);
    }
    if kind <= SIMPLE {
        return leaf(t, buf, pos);
    }
    if kind <= BYTES {
        return literal(text, t, buf, pos);
    }
    if kind == OPEN_PAREN {
        return chunked(text, t.next, levels, buf, pos);
    }
    strayed(levels, t)
}

// An item that opens no level.
fn flat(
    text: &[u8],
    from: usize,
    levels: usize,
    buf: &mut [u8],
    pos: usize,
) -> Result<MadeItem, Refusal>
    requires flat { Flat text.now from levels }
    requires room { Room text.now from pos }
    ensures { ReadTold of_item text.now buf.old buf.new (length (marked text.now) - from) pos result (reads (one levels) (drop from (marked text.now))) }
{
    let here = TextCursor { at: from }.skip(text);
    let q = read_odd(text, here.at, buf, pos);
    let found = q.found;
    if is_leaf(found) {
        return done(q.next, q.size, q.binary, q.length);
    }
    whole(text, from, levels, buf, pos)
}

// What becomes of an item behind the head of a tag.
fn tagged(
    number: u64,
    head: usize,
    next: usize,
    size: usize,
    binary: bool,
    length: usize,
    place: usize,
) -> Result<MadeItem, Refusal>
    ensures { TagMade number head next size binary length place result }
{
    if typed_array::may_tag(number, binary, length) {
        return done(next, sum(head, size), false, 0);
    }
    refuse(RefusalKind::BadTypedArray, place)
}

// One item, a leaf mostly, from a place on, its bytes into the buffer from pos on.
#[cycle(array_embed_enter_item_level_map_seldom_several_tag)]
fn item(
    text: &[u8],
    from: usize,
    levels: usize,
    buf: &mut [u8],
    pos: usize,
) -> Result<MadeItem, Refusal>
    requires { Room text.now from pos }
    ensures { ReadTold of_item text.now buf.old buf.new (length (marked text.now) - from) pos result (reads (one levels) (drop from (marked text.now))) }
{
    let here = TextCursor { at: from }.skip(text);
    let at = here.at;
    let q = read_leaf(text, at, buf, pos);
    let found = q.found;
    if is_leaf(found) {
        return done(q.next, q.size, q.binary, q.length);
    }
    if levels == 0 {
        return again(flat(text, from, levels, buf, pos));
    }
    enter(text, from, at, q, levels, buf, pos)
}

// An item that is not seen to be a leaf: an array or a map without an indicator, mostly.
#[cycle(array_embed_enter_item_level_map_seldom_several_tag)]
fn enter(
    text: &[u8],
    from: usize,
    at: usize,
    q: LeafRead,
    levels: usize,
    buf: &mut [u8],
    pos: usize,
) -> Result<MadeItem, Refusal>
    requires level_at { LevelAt text.now from at q levels }
    requires room { Room text.now from pos }
    ensures { ReadTold of_item text.now buf.old buf.new (length (marked text.now) - from) pos result (reads (one levels) (drop from (marked text.now))) }
{
    if opens_bare(text, from, at, Opener::Array) {
        return array(text, at + 1, NONE, at, levels - 1, buf, pos);
    }
    if opens_bare(text, from, at, Opener::Map) {
        return map(text, at + 1, NONE, at, levels - 1, buf, pos);
    }
    seldom(text, from, at, q, levels, buf, pos)
}

// A leaf as it is seldom written, or what opens a level.
#[cycle(array_embed_enter_item_level_map_seldom_several_tag)]
fn seldom(
    text: &[u8],
    from: usize,
    at: usize,
    q: LeafRead,
    levels: usize,
    buf: &mut [u8],
    pos: usize,
) -> Result<MadeItem, Refusal>
    requires level_at { LevelAt text.now from at q levels }
    requires room { Room text.now from pos }
    ensures { ReadTold of_item text.now buf.old buf.new (length (marked text.now) - from) pos result (reads (one levels) (drop from (marked text.now))) }
{
    let found = q.found;
    let r = odd_leaf(text, at, found, buf, pos);
    let seen = r.found;
    if is_leaf(seen) {
        return done(r.next, r.size, r.binary, r.length);
    }
    level(text, from, at, q, levels, buf, pos)
}

// An item where no leaf was read: what opens a level, or an item by its token.
#[cycle(array_embed_enter_item_level_map_seldom_several_tag)]
fn level(
    text: &[u8],
    from: usize,
    at: usize,
    q: LeafRead,
    levels: usize,
    buf: &mut [u8],
    pos: usize,
) -> Result<MadeItem, Refusal>
    requires level_at { LevelAt text.now from at q levels }
    requires room { Room text.now from pos }
    ensures { ReadTold of_item text.now buf.old buf.new (length (marked text.now) - from) pos result (reads (one levels) (drop from (marked text.now))) }
{
    let o = opening_at(text, from, at, q);
    let opener = o.opener;
    match opener {
        Opener::Array => array(text, o.next, o.indicator, o.place, levels - 1, buf, pos),
        Opener::Map => map(text, o.next, o.indicator, o.place, levels - 1, buf, pos),
        Opener::Tag => tag(
            text,
            o.next,
            o.first,
            o.number,
            o.place,
            levels - 1,
            buf,
            pos,
        ),
        Opener::Embedded => embed(text, o.next, o.place, levels - 1, buf, pos),
        Opener::Nothing => again(flat(text, from, levels, buf, pos)),
    }
}

// An array behind its bracket.
#[cycle(array_embed_enter_item_level_map_seldom_several_tag)]
fn array(
    text: &[u8],
    at: usize,
    indicator: u8,
    place: usize,
    levels: usize,
    buf: &mut [u8],
    pos: usize,
) -> Result<MadeItem, Refusal>
    requires { Bracketed text.now at pos place indicator }
    ensures { ReadTold of_item text.now buf.old buf.new (length (marked text.now) - at + 1) pos result (behind_opener levels (bracket (indicator_for indicator)) (length (marked text.now) - place) (drop at (marked text.now))) }
{
    let m = several(text, at, Closer::Square, levels, buf, pos + 1)?;
    if is_short(indicator, m.count) {
        return finish_short(buf, pos, ARRAY, m.count, m.next, m.size);
    }
    if indicator == INDEFINITE {
        return endless(buf, pos, ENDLESS_ARRAY, m.next, m.size, false, 0);
    }
    finish(
        buf, pos, ARRAY, indicator, m.count, m.next, m.size, place, false, 0,
    )
}

// A map behind its brace.
#[cycle(array_embed_enter_item_level_map_seldom_several_tag)]
fn map(
    text: &[u8],
    at: usize,
    indicator: u8,
    place: usize,
    levels: usize,
    buf: &mut [u8],
    pos: usize,
) -> Result<MadeItem, Refusal>
    requires { Bracketed text.now at pos place indicator }
    ensures { ReadTold of_item text.now buf.old buf.new (length (marked text.now) - at + 1) pos result (behind_opener levels (brace (indicator_for indicator)) (length (marked text.now) - place) (drop at (marked text.now))) }
{
    let m = several(text, at, Closer::Curly, levels, buf, pos + 1)?;
    if is_short(indicator, m.count) {
        return finish_short(buf, pos, MAP, m.count, m.next, m.size);
    }
    if indicator == INDEFINITE {
        return endless(buf, pos, ENDLESS_MAP, m.next, m.size, false, 0);
    }
    finish(
        buf, pos, MAP, indicator, m.count, m.next, m.size, place, false, 0,
    )
}

// Items in angles, as a byte string.
#[cycle(array_embed_enter_item_level_map_seldom_several_tag)]
fn embed(
    text: &[u8],
    at: usize,
    place: usize,
    levels: usize,
    buf: &mut [u8],
    pos: usize,
) -> Result<MadeItem, Refusal>
    requires { Opened text.now at pos place }
    ensures { ReadTold of_item text.now buf.old buf.new (length (marked text.now) - at + 1) pos result (behind_opener levels embedding (length (marked text.now) - place) (drop at (marked text.now))) }
{
    let room = room_for(text, at, buf.len(), pos);
    let m = several(text, at, Closer::Angle, levels, buf, pos + room)?;
    enclose(buf, pos, room, m.indicator, m.next, m.size, place)
}

// A tag behind its number: its head, and the item.
#[cycle(array_embed_enter_item_level_map_seldom_several_tag)]
fn tag(
    text: &[u8],
    at: usize,
    first: u8,
    number: u64,
    place: usize,
    levels: usize,
    buf: &mut [u8],
    pos: usize,
) -> Result<MadeItem, Refusal>
    requires { Opened text.now at pos place }
    ensures { ReadTold (of_tagged first number) text.now buf.old buf.new (length (marked text.now) - at + 1) pos result (tagged_read levels number (length (marked text.now) - place) (drop at (marked text.now))) }
{
    let size = put_head(buf, pos, first, number);
    let m = several(text, at, Closer::Round, levels, buf, pos + size)?;
    tagged(number, size, m.next, m.size, m.binary, m.length, place)
}

// The items up to what closes them.
#[cycle(array_embed_enter_item_level_map_seldom_several_tag)]
fn several(
    text: &[u8],
    from: usize,
    closer: Closer,
    levels: usize,
    buf: &mut [u8],
    pos: usize,
) -> Result<MadeItem, Refusal>
    requires { Room text.now from pos }
    ensures { ReadTold as_seen text.now buf.old buf.new (length (marked text.now) - from) pos result (several_read closer levels (drop from (marked text.now))) }
{
    let start = first(text, from, closer);
    let empty = start.found;
    if empty {
        return listed(start.next, 0, 0, start.indicator);
    }
    let mut at = from;
    let mut n: usize = 0;
    let mut size: usize = 0;
    let mut key = starts(closer);
    loop {
        let m = item(text, at, levels, buf, pos + size)?;
        n += counted(key);
        size += m.size;
        let f = followed(text, m.next, closer, key);
        let follow = f.follow;
        match follow {
            Follow::Over => {
                return Ok(MadeItem {
                    next: f.next,
                    size,
                    count: n,
                    indicator: f.indicator,
                    binary: m.binary,
                    length: m.length,
                });
            }
            Follow::Stray => return again(stray(text, m.next, levels)),
            Follow::On => {
                at = f.next;
                key = turned(closer, key);
            }
        }
    }
}

// One item, and where the text goes on behind it.
pub fn single(
    text: &[u8],
    from: usize,
    levels: usize,
    buf: &mut [u8],
    pos: usize,
) -> Result<MadeItem, Refusal>
    requires { Room text.now from pos }
    ensures { ReadTold of_item text.now buf.old buf.new (length (marked text.now) - from) pos result (reads (one levels) (drop from (marked text.now))) }
{
    several(text, from, Closer::Nothing, levels, buf, pos)
}

// All items of a text, their bytes at the front of the buffer, if they fit.
pub fn read_items(text: &[u8], buf: &mut [u8]) -> Result<MadeItem, Refusal>
    requires { length text.now ≤ most_bytes }
    ensures { ReadTold of_closed text.now buf.old buf.new (length (marked text.now)) 0 result (sequence text.now) }
{
    several(text, 0, Closer::Whole, MOST_LEVELS, buf, 0)
}
