//! The first word of a line.
ghost use Rattle.std.specs.Prelude.{◌≡◌, ◌∷◌, [], codes};
ghost use Rattle.sock_pair.specs.ScriptWords.{keyword_of, named};
ghost use Rattle.sock_pair.specs.declared.script.keyword.Keyword.TheVariants as keyword;

/// What a line of a script asks for, as its first word names it.
#[derive(Clone, Copy)]
pub enum Keyword {
    Listen,
    Connect,
    Close,
    Abort,
    Send,
    Recv,
    Nagle,
    Rules,
    Dispatch,
    Fail,
    Gone,
    Deliver,
}

impl Keyword {
    /// The keyword that this word is; none where it is none.
    #[tactic(auto, unfolding(crate::specs::ScriptWords::keyword_of))]
    pub fn of_word(word: &[u8]) -> Option<Keyword>
        ensures { result ≡ keyword_of word.now }
    {
        match word {
            name if name == b"listen".as_slice() => Some(Keyword::Listen),
            name if name == b"connect".as_slice() => Some(Keyword::Connect),
            name if name == b"close".as_slice() => Some(Keyword::Close),
            name if name == b"abort".as_slice() => Some(Keyword::Abort),
            _ => Keyword::of_later_word(word),
        }
    }

    // One that comes later in the table: in a match with all of them each arm has all ways out before it.
    fn of_later_word(word: &[u8]) -> Option<Keyword>
        ensures { result ≡ named ((codes "send", keyword.Send) ∷ (codes "recv", keyword.Recv)
            ∷ (codes "nagle", keyword.Nagle) ∷ (codes "rules", keyword.Rules) ∷ (codes "dispatch", keyword.Dispatch)
            ∷ (codes "fail", keyword.Fail) ∷ (codes "gone", keyword.Gone) ∷ (codes "deliver", keyword.Deliver) ∷ [])
            word.now }
    {
        match word {
            name if name == b"send".as_slice() => Some(Keyword::Send),
            name if name == b"recv".as_slice() => Some(Keyword::Recv),
            name if name == b"nagle".as_slice() => Some(Keyword::Nagle),
            name if name == b"rules".as_slice() => Some(Keyword::Rules),
            _ => Keyword::of_last_word(word),
        }
    }

    fn of_last_word(word: &[u8]) -> Option<Keyword>
        ensures { result ≡ named ((codes "dispatch", keyword.Dispatch) ∷ (codes "fail", keyword.Fail)
            ∷ (codes "gone", keyword.Gone) ∷ (codes "deliver", keyword.Deliver) ∷ []) word.now }
    {
        match word {
            name if name == b"dispatch".as_slice() => Some(Keyword::Dispatch),
            name if name == b"fail".as_slice() => Some(Keyword::Fail),
            name if name == b"gone".as_slice() => Some(Keyword::Gone),
            name if name == b"deliver".as_slice() => Some(Keyword::Deliver),
            _ => None,
        }
    }
}
