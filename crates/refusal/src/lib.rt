// House refusals of the calls: the tests in number order, and the first that applies.
#![tactic(auto)]

ghost use Rattle.std.specs.Prelude.{◌≡◌, ◌≢◌, false, Ok, Err, IfErr};
ghost use Rattle.buffer.specs.Pick.{pick};
ghost use Rattle.refusal.specs.Refusal.{number_of, outcome_of, refusal_of, own_refusal};

// Why a call refuses.
#[derive(Clone, Copy)]
pub enum Refusal {
    // the output is shorter than 1,280
    Output,
    // the image buffer is not of the setup length
    ImageLength,
    // the verdict is not 0, 1 or 2
    Verdict,
    // the store can't be taken
    Store,
    // the datagram is longer than 1,280
    DatagramLength,
    // nothing is due to be sent, by the caller's number
    NotDue(u32),
}

impl Refusal {
    // Document 01's outcome.
    #[tactic(auto, unfolding(crate::specs::Refusal::number_of))]
    pub fn number(self) -> u32
        ensures { result ≡ number_of self }
    {
        match self {
            Refusal::Output => 1,
            Refusal::ImageLength => 2,
            Refusal::Verdict => 3,
            Refusal::Store => 4,
            Refusal::DatagramLength => 5,
            Refusal::NotDue(number) => number,
        }
    }
}

// Refuses where a test does not hold.
fn checked(holds: bool, refusal: Refusal) -> Result<(), Refusal>
    ensures { result ≡ pick holds (Ok tt) (Err refusal) }
{
    if holds {
        return Ok(());
    }
    Err(refusal)
}

// Of a datagram: refusals 1 to 5.
pub fn datagram_refusal(
    image_len: u32,
    image: usize,
    out: usize,
    len: usize,
    store: &[u8],
    verdict: u8,
) -> Result<(), Refusal>
    ensures outcome { outcome_of result ≡ refusal_of image_len image out len store.now verdict }
    ensures numbered { IfErr result (λ refusal. number_of refusal ≢ 0) }
{
    checked(1280 <= out, Refusal::Output)?;
    checked(image == image_len as usize, Refusal::ImageLength)?;
    checked(verdict <= 2, Refusal::Verdict)?;
    checked(store::is_acceptable(store), Refusal::Store)?;
    checked(len <= 1280, Refusal::DatagramLength)
}

// Of a datagram of the agent's own: refusals 1 and 4, and the caller's 8 or 9 where nothing is due.
pub fn own_refusal(out: usize, store: &[u8], due: bool, number: u32) -> Result<(), Refusal>
    ensures outcome { outcome_of result ≡ own_refusal out store.now due number }
    ensures numbered { (due ≡ false → number ≢ 0) → IfErr result (λ refusal. number_of refusal ≢ 0) }
{
    checked(1280 <= out, Refusal::Output)?;
    checked(store::is_acceptable(store), Refusal::Store)?;
    checked(due, Refusal::NotDue(number))
}
