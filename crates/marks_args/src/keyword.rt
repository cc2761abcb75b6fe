// The options, by their keywords.
#[derive(Clone, Copy, Debug, PartialEq, Eq)]
pub enum Keyword {
    Clock,
    Reset,
    Enable,
    P,
    Q,
    R,
    Min,
    Value,
    Severity,
}

pub fn keyword_of(word: &[u8]) -> Option<Keyword> {
    match word {
        b"clock" => Some(Keyword::Clock),
        b"reset" => Some(Keyword::Reset),
        b"enable" => Some(Keyword::Enable),
        b"p" => Some(Keyword::P),
        b"q" => Some(Keyword::Q),
        b"r" => Some(Keyword::R),
        b"min" => Some(Keyword::Min),
        b"value" => Some(Keyword::Value),
        b"severity" => Some(Keyword::Severity),
        _ => None,
    }
}
