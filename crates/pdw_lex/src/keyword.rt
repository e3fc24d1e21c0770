ghost use Rattle.std.specs.Prelude.{◌≡◌, map};
ghost use Rattle.pdw_lex.specs.Keyword.{keyword_among, keyword_of};

/// A word that is no name.
#[derive(Clone, Copy, Debug, PartialEq, Eq)]
pub enum Keyword {
    KwAll,
    KwAnd,
    KwAs,
    KwAsc,
    KwBetween,
    KwBy,
    KwCount,
    KwCreate,
    KwCross,
    KwDesc,
    KwDistinct,
    KwDrop,
    KwExcept,
    KwExists,
    KwFalse,
    KwFrom,
    KwFull,
    KwGroup,
    KwHaving,
    KwIn,
    KwInner,
    KwIntersect,
    KwIs,
    KwJoin,
    KwLeft,
    KwLike,
    KwMax,
    KwMin,
    KwNot,
    KwNull,
    KwOn,
    KwOr,
    KwOrder,
    KwOuter,
    KwRight,
    KwSelect,
    KwSet,
    KwSum,
    KwTable,
    KwTrue,
    KwUnion,
    KwUnknown,
    KwUpdate,
    KwWhere,
    KwWith,
}

/// Each keyword with its spelling in lower case.
const KEYWORDS: [(&str, Keyword); 45] = [
    ("all", Keyword::KwAll),
    ("and", Keyword::KwAnd),
    ("as", Keyword::KwAs),
    ("asc", Keyword::KwAsc),
    ("between", Keyword::KwBetween),
    ("by", Keyword::KwBy),
    ("count", Keyword::KwCount),
    ("create", Keyword::KwCreate),
    ("cross", Keyword::KwCross),
    ("desc", Keyword::KwDesc),
    ("distinct", Keyword::KwDistinct),
    ("drop", Keyword::KwDrop),
    ("except", Keyword::KwExcept),
    ("exists", Keyword::KwExists),
    ("false", Keyword::KwFalse),
    ("from", Keyword::KwFrom),
    ("full", Keyword::KwFull),
    ("group", Keyword::KwGroup),
    ("having", Keyword::KwHaving),
    ("in", Keyword::KwIn),
    ("inner", Keyword::KwInner),
    ("intersect", Keyword::KwIntersect),
    ("is", Keyword::KwIs),
    ("join", Keyword::KwJoin),
    ("left", Keyword::KwLeft),
    ("like", Keyword::KwLike),
    ("max", Keyword::KwMax),
    ("min", Keyword::KwMin),
    ("not", Keyword::KwNot),
    ("null", Keyword::KwNull),
    ("on", Keyword::KwOn),
    ("or", Keyword::KwOr),
    ("order", Keyword::KwOrder),
    ("outer", Keyword::KwOuter),
    ("right", Keyword::KwRight),
    ("select", Keyword::KwSelect),
    ("set", Keyword::KwSet),
    ("sum", Keyword::KwSum),
    ("table", Keyword::KwTable),
    ("true", Keyword::KwTrue),
    ("union", Keyword::KwUnion),
    ("unknown", Keyword::KwUnknown),
    ("update", Keyword::KwUpdate),
    ("where", Keyword::KwWhere),
    ("with", Keyword::KwWith),
];

// The keyword that the table has at the spelling.
fn keyword_at(mut table: &[(&str, Keyword)], word: &[u8]) -> Option<Keyword>
    ensures { result ≡ keyword_among (map (λ entry. (entry.0.now, entry.1)) table.entry.now) word.now }
{
    while let [entry, rest @ ..] = table {
        if word == entry.0.as_bytes() {
            return Some(entry.1);
        }
        table = rest;
    }
    None
}

/// The keyword of a word in lower case, if it is one.
#[tactic(auto, unfolding(crate::specs::Keyword::keyword_of))]
pub(crate) fn keyword_from(word: &[u8]) -> Option<Keyword>
    ensures { result ≡ keyword_of word.now }
{
    keyword_at(&KEYWORDS, word)
}
