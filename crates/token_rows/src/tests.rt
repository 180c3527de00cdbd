use text_tokens::{Kind, Language, Tokens, number, same_kind};

/// Whether the text has these words: their kinds, texts and places.
fn has_words(language: Language, text: &str, words: &[(Kind, &str, u64)]) -> bool {
    let mut tokens = Tokens::new(language, text);
    for (kind, word, place) in words {
        if !same_kind(tokens.peek(), *kind) || tokens.place() != *place || tokens.is_done() {
            return false;
        }
        if tokens.take() != *word {
            return false;
        }
    }
    tokens.is_done() && tokens.place() == text.len() as u64
}

#[test]
fn words_with_their_places(rt: HostRuntime) {
    assert!(rt;
        has_words(
            Language::SourceOne,
            " size N in 0..12;# é {\r\n_é1<=<",
            &[
                (Kind::Size, "size", 1),
                (Kind::Name, "N", 6),
                (Kind::In, "in", 8),
                (Kind::Number, "0", 11),
                (Kind::DotDot, "..", 12),
                (Kind::Number, "12", 14),
                (Kind::Semi, ";", 16),
                (Kind::Name, "_é1", 25),
                (Kind::LessEqual, "<=", 29),
                (Kind::Less, "<", 31),
            ],
        )
    );
    assert!(rt; has_words(Language::SourceOne, "€", &[(Kind::Bad, "€", 0)]));
    assert!(rt; has_words(Language::Data, "", &[]));
}

#[test]
fn keywords_and_symbols_by_language(rt: HostRuntime) {
    let text = "word do :";
    assert!(rt;
        has_words(
            Language::SourceOne,
            text,
            &[
                (Kind::Name, "word", 0),
                (Kind::Name, "do", 5),
                (Kind::Bad, ":", 8),
            ],
        )
    );
    assert!(rt;
        has_words(
            Language::SourceTwo,
            text,
            &[
                (Kind::Word, "word", 0),
                (Kind::Name, "do", 5),
                (Kind::Bad, ":", 8),
            ],
        )
    );
    assert!(rt;
        has_words(
            Language::Script,
            text,
            &[
                (Kind::Name, "word", 0),
                (Kind::Do, "do", 5),
                (Kind::Colon, ":", 8),
            ],
        )
    );
}

#[test]
fn numbers_of_64_bits(rt: HostRuntime) {
    assert_eq!(rt; number("0012"), Some(12));
    assert_eq!(rt; number("18446744073709551615"), Some(u64::MAX));
    assert_eq!(rt; number("18446744073709551616"), None);
}
