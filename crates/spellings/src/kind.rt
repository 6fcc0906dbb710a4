// The kinds of cases: the spellings that 01 names, a raw line and a file of lines. A case has its kind's number.

#[derive(Clone, Copy)]
pub enum Kind {
    Keyword,
    Words,
    Subframes,
    WordBits,
    Margin,
    Identifier,
    DeclaredSubframe,
    DeclaredWord,
    Overlap,
    ComponentBits,
    SourceBits,
    Label,
    Time,
    Delay,
    Seconds,
    Truth,
    TruthOrEmpty,
    Text,
    Model,
    Name,
    Mnemonic,
    Version,
    MustBeEmpty,
    Fields,
    Lines,
}

impl TryFrom<u64> for Kind {
    type Error = ();

    fn try_from(number: u64) -> Result<Kind, ()> {
        Ok(match number {
            0 => Kind::Keyword,
            1 => Kind::Words,
            2 => Kind::Subframes,
            3 => Kind::WordBits,
            4 => Kind::Margin,
            5 => Kind::Identifier,
            6 => Kind::DeclaredSubframe,
            7 => Kind::DeclaredWord,
            8 => Kind::Overlap,
            9 => Kind::ComponentBits,
            10 => Kind::SourceBits,
            11 => Kind::Label,
            12 => Kind::Time,
            13 => Kind::Delay,
            14 => Kind::Seconds,
            15 => Kind::Truth,
            16 => Kind::TruthOrEmpty,
            17 => Kind::Text,
            18 => Kind::Model,
            19 => Kind::Name,
            20 => Kind::Mnemonic,
            21 => Kind::Version,
            22 => Kind::MustBeEmpty,
            23 => Kind::Fields,
            24 => Kind::Lines,
            _ => return Err(()),
        })
    }
}
