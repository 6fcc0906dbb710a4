// Why a call on a table is refused: one enum for all of them, with 01's and 02's numbers.
ghost use Rattle.std.specs.Prelude.{◌≡◌};
ghost use Rattle.table.specs.Reasons.{reason_number, answer_number};

#[derive(Clone, Copy, PartialEq, Eq, Debug)]
pub enum Reason {
    Overlapped = 10,
    NoTable = 18,
    OtherCount = 19,
    HighWord = 20,
    NoParameter = 21,
    NoSample = 22,
    TooLarge = 23,
    NoFrame = 25,
    UnknownMargin = 26,
    NoParameters = 27,
    FewWords = 28,
    LongStream = 38,
}

#[tactic(auto, unfolding(crate::specs::Reasons::reason_number))]
pub fn reason_number(r: Reason) -> u32
    ensures { result ≡ reason_number r }
{
    r as u32
}

// The number of any call's answer; 0 where it is not refused.
#[tactic(auto, unfolding(crate::specs::Reasons::answer_number))]
pub fn answer_number<T>(answer: &Result<T, Reason>) -> u32
    ensures { result ≡ answer_number answer.now }
{
    match answer {
        Ok(_) => 0,
        Err(reason) => reason_number(*reason),
    }
}
