/// Why bytes encode no transaction. A place counts from the first byte handed in.
#[derive(Clone, Copy, Debug, PartialEq, Eq, thiserror::Error)]
pub enum TxFault {
    /// The bytes end within the field whose first byte stands at the place.
    #[error("bytes end within the field at {place}")]
    Short { place: usize },
    /// The CompactSize at the place has a shorter encoding.
    #[error("the number at {place} has a shorter encoding")]
    LongSpelling { place: usize },
    /// The byte at the place, after the marker, is not 1 (BIP 144).
    #[error("the flag at {place} is not 1")]
    BadFlag { place: usize },
    /// The form with witnesses, but every witness is empty (BIP 144).
    #[error("every witness is empty")]
    EmptyWitness,
    /// There are no inputs.
    #[error("no inputs")]
    NoInputs,
    /// There are no outputs.
    #[error("no outputs")]
    NoOutputs,
    /// The output's value, or the sum of the values up to it, is above 2,100,000,000,000,000 satoshi.
    #[error("output {output} has too much money")]
    Money { output: usize },
    /// No memory was found.
    #[error("out of memory")]
    Memory,
}
