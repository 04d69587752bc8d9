// What of a list item is taken at once: the begin of one without a number, where one space is after its marker; and the
// indent of a further line, where it is spaces and the line is not blank.

ghost use Rattle.std.specs.Prelude.{◌≡◌, ◌+◌, ◌≤◌, OnOk, is_err, length, true};
ghost use Rattle.md_engine.specs.Full.{Grown, IsFullList};
ghost use Rattle.md_engine.specs.World.{world};
ghost use Rattle.md_engine.specs.declared.tokenizer.container.Container.{Container};
ghost use Rattle.md_containers.specs.Item.{least_width};
ghost use Rattle.md_containers.specs.PlainBullet.{IsPlainBullet, bulleted};
ghost use Rattle.md_containers.specs.PlainItem.{AreSpaces, IsPlainIndent, SpacesHere, indented, moved};

use crate::list_item::{at_least_one, is_bullet, width_here};
use crate::room::{ahead, enter, exit, has_room};
use md_engine::class::is_white;
use md_engine::event::Name;
use md_engine::message::Message;
use md_engine::tokenizer::{Container, Tokenizer, Whitespace};
use md_events::space_or_tab::look_after_white;

/// Whether a bullet and one space are here, and after them another byte than this bullet, which may be read now.
pub fn is_plain_bullet(tokenizer: &Tokenizer) -> bool
    ensures { result ≡ true → IsPlainBullet (world tokenizer.now) }
{
    let index = tokenizer.point.index;
    if index >= tokenizer.limit
        || 2 >= tokenizer.limit - index
        || !tokenizer.options.constructs.list_item
    {
        return false;
    }
    let marker = tokenizer.bytes[index];
    let following = tokenizer.bytes[index + 2];
    is_bullet(marker)
        && tokenizer.bytes[index + 1] == b' '
        && following != marker
        && !is_white(following)
        && following != b'\n'
        && following != b'\r'
}

/// Takes the bullet and the space that are here where the list of events may have no room for them. This is rare, so it
/// is apart.
#[inline(never)]
fn take_bullet_growing(tokenizer: &mut Tokenizer) -> Result<(), Message>
    requires { IsPlainBullet (world tokenizer.old) }
    ensures world { OnOk result (world tokenizer.new ≡ bulleted (world tokenizer.old)) }
    ensures full { is_err result ≡ true → IsFullList Grown.Events tokenizer.new }
{
    tokenizer.enter(Name::ListItem)?;
    tokenizer.enter(Name::ListItemPrefix)?;
    tokenizer.enter(Name::ListItemMarker)?;
    tokenizer.consume();
    tokenizer.exit(Name::ListItemMarker)?;
    tokenizer.enter(Name::SpaceOrTab)?;
    tokenizer.consume();
    tokenizer.exit(Name::SpaceOrTab)?;
    tokenizer.scratch.seen = false;
    tokenizer.scratch.whitespace = Whitespace {
        min: 0,
        max: 0,
        size: 0,
    };
    tokenizer.flags.asked.width = width_here(tokenizer, false);
    tokenizer.flags.asked.starts_blank = false;
    tokenizer.exit(Name::ListItemPrefix)?;
    tokenizer.current = tokenizer.look();
    Ok(())
}

/// Takes the bullet and the space that are here, as the states of the item that is tried do, and sees what follows
/// them.
#[inline(always)]
pub fn take_plain_bullet(tokenizer: &mut Tokenizer) -> Result<(), Message>
    requires { IsPlainBullet (world tokenizer.old) }
    ensures world { OnOk result (world tokenizer.new ≡ bulleted (world tokenizer.old)) }
    ensures full { is_err result ≡ true → IsFullList Grown.Events tokenizer.new }
{
    if !has_room(tokenizer, 7) {
        return take_bullet_growing(tokenizer);
    }
    let from = tokenizer.point;
    let marked = ahead(from, 1);
    let to = ahead(from, 2);
    tokenizer.events.push_reserved(enter(Name::ListItem, from));
    tokenizer
        .events
        .push_reserved(enter(Name::ListItemPrefix, from));
    tokenizer
        .events
        .push_reserved(enter(Name::ListItemMarker, from));
    tokenizer
        .events
        .push_reserved(exit(Name::ListItemMarker, marked));
    tokenizer
        .events
        .push_reserved(enter(Name::SpaceOrTab, marked));
    tokenizer.events.push_reserved(exit(Name::SpaceOrTab, to));
    tokenizer
        .events
        .push_reserved(exit(Name::ListItemPrefix, to));
    tokenizer.point = to;
    tokenizer.current = tokenizer.look();
    tokenizer.scratch.seen = false;
    tokenizer.scratch.whitespace = Whitespace {
        min: 0,
        max: 0,
        size: 0,
    };
    tokenizer.flags.asked.width = width_here(tokenizer, false);
    tokenizer.flags.asked.starts_blank = false;
    Ok(())
}

/// Whether spaces are from an index on up to another.
fn are_spaces(bytes: &[u8], from: usize, to: usize) -> bool
    requires { to ≤ length bytes.now }
    ensures { result ≡ true → AreSpaces bytes.now from to }
{
    let mut at = from;
    while at < to {
        if bytes[at] != b' ' {
            return false;
        }
        at += 1;
    }
    true
}

/// Whether the indent of a further line of an item is here as spaces, on a line that is not blank, and after it
/// something that may be read now.
pub fn is_plain_indent(tokenizer: &mut Tokenizer, item: Container) -> bool
    ensures plain { result ≡ true → IsPlainIndent (least_width item) (world tokenizer.old) }
    ensures same { world tokenizer.new ≡ world tokenizer.old }
{
    let index = tokenizer.point.index;
    let columns = at_least_one(item.width);
    if index >= tokenizer.limit || columns >= tokenizer.limit - index {
        return false;
    }
    if tokenizer.scratch.whitespace.max > 0
        || !are_spaces(tokenizer.bytes, index, index + columns)
    {
        return false;
    }
    match look_after_white(tokenizer) {
        Some(byte) => byte != b'\n',
        None => false,
    }
}

/// Takes so many spaces.
fn take_spaces(tokenizer: &mut Tokenizer, columns: usize)
    requires spaces { SpacesHere columns (world tokenizer.old) }
    requires inside { (world tokenizer.old).point.index + columns ≤ length (world tokenizer.old).setting.bytes }
    ensures { world tokenizer.new ≡ moved columns (world tokenizer.old) }
{
    let mut taken = 0;
    while taken < columns {
        tokenizer.consume();
        taken += 1;
    }
}

/// Takes the indent that is here as spaces where the list of events may have no room for it. This is rare, so it is
/// apart.
#[inline(never)]
fn take_indent_growing(tokenizer: &mut Tokenizer) -> Result<(), Message>
    requires { IsPlainIndent (least_width (world tokenizer.old).flags.asked) (world tokenizer.old) }
    ensures world { OnOk result
        (world tokenizer.new ≡ indented (least_width (world tokenizer.old).flags.asked) (world tokenizer.old)) }
    ensures full { is_err result ≡ true → IsFullList Grown.Events tokenizer.new }
{
    let columns = at_least_one(tokenizer.flags.asked.width);
    tokenizer.enter(Name::SpaceOrTab)?;
    take_spaces(tokenizer, columns);
    tokenizer.exit(Name::SpaceOrTab)?;
    tokenizer.scratch.whitespace = Whitespace {
        min: 0,
        max: 0,
        size: 0,
    };
    tokenizer.flags.asked.starts_blank = false;
    tokenizer.current = tokenizer.look();
    Ok(())
}

/// Takes the indent that is here as spaces, as the states of the item that is asked do, and sees what follows it.
#[inline(always)]
pub fn take_plain_indent(tokenizer: &mut Tokenizer) -> Result<(), Message>
    requires { IsPlainIndent (least_width (world tokenizer.old).flags.asked) (world tokenizer.old) }
    ensures world { OnOk result
        (world tokenizer.new ≡
        indented (least_width (world tokenizer.old).flags.asked) (world tokenizer.old)) }
    ensures full { is_err result ≡ true → IsFullList Grown.Events tokenizer.new }
{
    if !has_room(tokenizer, 2) {
        return take_indent_growing(tokenizer);
    }
    let from = tokenizer.point;
    let to = ahead(from, at_least_one(tokenizer.flags.asked.width));
    tokenizer
        .events
        .push_reserved(enter(Name::SpaceOrTab, from));
    tokenizer.events.push_reserved(exit(Name::SpaceOrTab, to));
    tokenizer.point = to;
    tokenizer.current = tokenizer.look();
    tokenizer.scratch.whitespace = Whitespace {
        min: 0,
        max: 0,
        size: 0,
    };
    tokenizer.flags.asked.starts_blank = false;
    Ok(())
}
