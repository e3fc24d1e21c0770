use pdw_base::MOST_SCRIPT_BYTES;
use pdw_lex::{LexError, Lexeme, Token, lex};
use std::alloc::Global;
use std::test::Fail;

fn shown_token(alloc: Global, token: &Token) -> Result<String, Fail> {
    let (from, to) = (token.from, token.to);
    match &token.lexeme {
        Lexeme::Name(name) => Ok(format!(in alloc; "{from}-{to} name {}", name.text())?),
        Lexeme::Key(keyword) => Ok(format!(in alloc; "{from}-{to} {keyword:?}")?),
        Lexeme::Number(number) => Ok(format!(in alloc; "{from}-{to} number {number}")?),
        Lexeme::Text(text) => Ok(format!(in alloc; "{from}-{to} text {}", text.text())?),
        Lexeme::Sign(sign) => Ok(format!(in alloc; "{from}-{to} {sign:?}")?),
    }
}

// The tokens with a bar after each, or the error.
fn shown(alloc: Global, script: &[u8]) -> Result<String, Fail> {
    if script.len() > MOST_SCRIPT_BYTES {
        return Ok(format!(in alloc; "too long")?);
    }
    match lex(alloc, script) {
        Ok(tokens) => {
            let mut text = String::new(alloc);
            for token in &tokens {
                text.push_str(shown_token(alloc, token)?.as_str())?;
                text.push_str("|")?;
            }
            Ok(text)
        }
        Err(error) => Ok(format!(in alloc; "{error}")?),
    }
}

// The bytes that a case stands for: `~` is a line feed, `^` a carriage return, a grave accent a tab, `@` the byte 255
// and `$` the byte 195.
fn bytes_of(alloc: Global, case: &str) -> Result<Vec<u8>, Fail> {
    let mut bytes = Vec::new(alloc);
    for byte in case.bytes() {
        bytes.push(match byte {
            b'~' => b'\n',
            b'^' => b'\r',
            b'`' => b'\t',
            b'@' => 0xFF,
            b'$' => 0xC3,
            other => other,
        })?;
    }
    Ok(bytes)
}

const CASES: &str = "\
\u{20}`^~ =>\u{20}
SELECT 9223372036854775808 FROM t; => the number at byte 7 is too great
9223372036854775807 => 0-19 number 9223372036854775807|
00 => 0-2 number 0|
1a => 0-1 number 1|1-2 name a|
a1 => 0-2 name a1|
T_9 tEXT => 0-3 name t_9|4-8 name text|
a.b => 0-1 name a|1-2 Dot|2-3 name b|
<> => 0-2 NotEqual|
< > => 0-1 Less|2-3 Greater|
<<=>=> => 0-1 Less|1-3 LessEqual|3-5 GreaterEqual|5-6 Greater|
(),;.*+/%= => 0-1 ParenOpen|1-2 ParenClose|2-3 Comma|3-4 Semicolon|4-5 Dot|5-6 Star|6-7 Plus|7-8 Slash|8-9 Percent|9-10 Equal|
- - => 0-1 Minus|2-3 Minus|
a-1 => 0-1 name a|1-2 Minus|2-3 number 1|
a -- b => 0-1 name a|
--^a~b => 5-6 name b|
--x~-- =>\u{20}
'it''s' => 0-7 text it's|
'' => 0-2 text |
'''' => 0-4 text '|
'a' 'b' => 0-3 text a|4-7 text b|
a 'b '' c => the text at byte 2 has no end
'a' 'b '' => the text at byte 4 has no end
a ? ? => no token begins at byte 2
?' => no token begins at byte 0
99999999999999999999 99999999999999999999 => the number at byte 0 is too great
'\u{E4}' ? => no token begins at byte 5
a@ @ => not UTF-8 at byte 1
'@' => not UTF-8 at byte 1
-- $ => not UTF-8 at byte 3";

// Whether the script before the arrow shows what stands behind it.
fn reads_so(alloc: Global, line: &str) -> Result<bool, Fail> {
    let (case, wanted) = line.split_once(" => ").ok_or("an arrow")?;
    let script = bytes_of(alloc, case)?;
    Ok(shown(alloc, script.as_slice())?.as_str() == wanted)
}

#[test]
fn scripts_have_their_tokens_or_first_fault(rt: HostRuntime) -> Result<(), Fail> {
    assert_eq!(rt; shown(rt.alloc(), b"")?.as_str(), "");
    for line in CASES.lines() {
        assert!(rt; reads_so(rt.alloc(), line)?, "{line}");
    }
    Ok(())
}

const KEYWORDS: &[u8] =
    b"All aND As Asc Between By Count Create Cross Desc Distinct Drop Except Exists False From Full Group Having In Inner Intersect Is Join Left Like Max Min Not Null On Or Order Outer Right Select Set Sum Table True Union Unknown Update Where With";

#[test]
fn keywords_are_known_in_any_case(rt: HostRuntime) -> Result<(), Fail> {
    let alloc = rt.alloc();
    if KEYWORDS.len() > MOST_SCRIPT_BYTES {
        return Ok(());
    }
    let tokens = lex(alloc, KEYWORDS)?;
    assert_eq!(rt; tokens.len(), 45);
    for token in &tokens {
        let Lexeme::Key(keyword) = &token.lexeme else {
            assert!(rt; false, "a keyword is no name");
            return Ok(());
        };
        let word = KEYWORDS
            .get(token.from as usize..token.to as usize)
            .ok_or("within the script")?;
        let variant = format!(in alloc; "{keyword:?}")?;
        let spelling = variant.as_bytes().strip_prefix(b"Kw").ok_or("Kw")?;
        assert!(rt; spelling.eq_ignore_ascii_case(word), "{variant}");
    }
    Ok(())
}

// Two texts of so many bytes, each in quotes.
fn two_texts(alloc: Global, count: usize) -> Result<Vec<u8>, Fail> {
    let mut script = Vec::new(alloc);
    for _ in 0..2 {
        script.push(b'\'')?;
        for _ in 0..count {
            script.push(b'x')?;
        }
        script.push(b'\'')?;
        script.push(b' ')?;
    }
    Ok(script)
}

#[test]
fn texts_have_at_most_1000_bytes(rt: HostRuntime) -> Result<(), Fail> {
    let alloc = rt.alloc();
    for (count, fault) in [(1_000, None), (1_001, Some(LexError::LongText { at: 0 }))] {
        let script = two_texts(alloc, count)?;
        if script.len() > MOST_SCRIPT_BYTES {
            return Ok(());
        }
        assert_eq!(rt; lex(alloc, &script).err(), fault);
    }
    Ok(())
}
