// Why a call is refused. The document numbers the refusals, and a call makes the tests in the order of the numbers.
ghost use Rattle.std.specs.Prelude.{◌≡◌};
ghost use Rattle.rules.specs.Refusals.{number_of, cycle_named, refusal_of};

#[derive(Clone, Copy, Debug, PartialEq, Eq)]
pub enum Refusal {
    // 1: no such kind.
    Kind,
    // 2: n, min or the severity is outside its limits.
    Limits,
    // 3: a port, or the expected value, does not fit the kind.
    Ports,
    // 4: the words of the trace are not those of at most 65,536 frames.
    TraceLength,
    // 5: another lent slice has not the length that is due.
    SliceLength,
    // 6: the edit's cycles are not a range of the trace's.
    EditRange,
    // 7: an open word that no trace leaves; in a record, with the lowest cycle that has one, else with 0.
    OpenWord(usize),
    // 8: the list has no room for all failures.
    ListRoom,
    // 9: more than 64 checkers.
    Checkers,
}

impl Refusal {
    // Its number in the document, by which the C host knows it.
    pub fn number(self) -> u32
        ensures { result ≡ number_of self }
    {
        match self {
            Refusal::Kind => 1,
            Refusal::Limits => 2,
            Refusal::Ports => 3,
            Refusal::TraceLength => 4,
            Refusal::SliceLength => 5,
            Refusal::EditRange => 6,
            Refusal::OpenWord(_) => 7,
            Refusal::ListRoom => 8,
            Refusal::Checkers => 9,
        }
    }

    // The cycle that it names, else 0.
    pub fn cycle(self) -> usize
        ensures { result ≡ cycle_named self }
    {
        match self {
            Refusal::OpenWord(cycle) => cycle,
            Refusal::Kind
            | Refusal::Limits
            | Refusal::Ports
            | Refusal::TraceLength
            | Refusal::SliceLength
            | Refusal::EditRange
            | Refusal::ListRoom
            | Refusal::Checkers => 0,
        }
    }
}

// The number of an answer: 0 where it is not refused.
pub fn refusal_number<T: Drop>(answer: &Result<T, Refusal>) -> u32
    ensures { result ≡ refusal_of answer.now }
{
    match answer {
        Ok(_) => 0,
        Err(refusal) => refusal.number(),
    }
}
