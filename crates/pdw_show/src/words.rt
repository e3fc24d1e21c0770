//! Words and numbers of the texts.

ghost use Rattle.std.specs.Fmt.{decimal};
ghost use Rattle.std.specs.Prelude.{◌≡◌, ◌++◌, OnOk};
ghost use Rattle.pdw_show.specs.Words as spec;

use itoa::Buffer;
use pdw_answer::PlanWord;
use pdw_base::{NoMemory, Node};
use pdw_move::Prop;

/// Adds a word and the number after it.
pub fn push_number(text: &mut Vec<u8>, word: &[u8], number: u128) -> Result<(), NoMemory>
    ensures { OnOk result (text.new.items ≡ text.old.items ++ (word.now ++ decimal number)) }
{
    text.extend_from_slice(word)?;
    text.extend_from_slice(Buffer::new().format(number).as_bytes())?;
    Ok(())
}

/// The word of a plan's line.
pub fn word_text(word: PlanWord) -> &'static [u8]
    ensures { result.now ≡ spec.word_text word }
{
    match word {
        PlanWord::Scan => b"SCAN",
        PlanWord::Filter => b"FILTER",
        PlanWord::Project => b"PROJECT",
        PlanWord::Join => b"JOIN",
        PlanWord::Left => b"LEFT",
        PlanWord::Full => b"FULL",
        PlanWord::Semi => b"SEMI",
        PlanWord::Anti => b"ANTI",
        PlanWord::Group => b"GROUP",
        PlanWord::Partial => b"PARTIAL",
        PlanWord::Final => b"FINAL",
        PlanWord::Free => b"FREE",
        PlanWord::Shuffle => b"SHUFFLE",
        PlanWord::ToSingle => b"TOSINGLE",
        PlanWord::ToControl => b"TOCONTROL",
        PlanWord::Broadcast => b"BROADCAST",
        PlanWord::Trim => b"TRIM",
        PlanWord::FromControl => b"FROMCONTROL",
        PlanWord::FromSingle => b"FROMSINGLE",
    }
}

fn push_hash(text: &mut Vec<u8>, column: u16) -> Result<(), NoMemory>
    ensures { OnOk result (text.new.items ≡ text.old.items ++ spec.hash_text column) }
{
    push_number(text, b"HASH(", u128::from(column))?;
    text.push(b')')?;
    Ok(())
}

/// Adds the text of a property.
pub fn push_prop(text: &mut Vec<u8>, prop: Prop) -> Result<(), NoMemory>
    ensures { OnOk result (text.new.items ≡ text.old.items ++ spec.prop_text prop) }
{
    match prop {
        Prop::Spread => text.extend_from_slice(b"SPREAD")?,
        Prop::Hash(column) => push_hash(text, column.0)?,
        Prop::Replicated => text.extend_from_slice(b"REPLICATED")?,
        Prop::Single => text.extend_from_slice(b"SINGLE")?,
        Prop::Control => text.extend_from_slice(b"CONTROL")?,
    }
    Ok(())
}

/// Adds a blank and the text of a node.
pub fn push_node(text: &mut Vec<u8>, node: Node) -> Result<(), NoMemory>
    ensures { OnOk result (text.new.items ≡ text.old.items ++ spec.node_text node) }
{
    match node {
        Node::Compute(number) => push_number(text, b" ", u128::from(number))?,
        Node::Control => text.extend_from_slice(b" C")?,
    }
    Ok(())
}
