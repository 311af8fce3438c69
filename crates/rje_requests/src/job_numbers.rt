//! The numbers of the jobs of a job file that a command is for.
ghost use Rattle.std.specs.Prelude.{◌≡◌, ◌↔◌, ◌<◌, ◌∷◌, [], ℕ, length, IfSome, IsSome, IsTrue, MatchOption};
ghost use Rattle.rje_requests.specs.JobNumbers.{AreJobNumbers, AreWithin, IsAbove, IsAnother, IsJobNumber, IsWithin, has_number, is_number, HasAbove};
ghost use Rattle.rje_requests.specs.Callers.{parts_of};

/// The numbers of some jobs of a job file, from 1.
#[derive(Clone, Copy, Debug, PartialEq, Eq)]
pub struct JobNumbers<'a> {
    /// The numbers in decimal digits, which a plus may precede, and commas between two of them. Each comes once.
    pub text: &'a str,
}

impl<'a> JobNumbers<'a> {
    /// The numbers of a text; none where a part between its commas is no number from 1 to 18446744073709551615, or comes twice.
    pub fn of(text: &'a str) -> Option<JobNumbers<'a>>
        ensures some { IsSome result ↔ AreJobNumbers text.entry.now }
        ensures these { IfSome result (λ numbers. numbers.text ≡ text.entry) }
    {
        match are_job_numbers(text) {
            true => Some(JobNumbers { text }),
            false => None,
        }
    }

    /// Whether this is one of them.
    pub fn have(&self, number: u64) -> bool
        ensures had { result ≡ has_number self.now.text.now number }
    {
        is_among(self.text, number)
    }

    /// The first of them that is above this number; none where each is at most this number.
    pub fn first_above(&self, most: u64) -> Option<u64>
        ensures above { MatchOption result (AreWithin self.now.text.now most)
            (HasAbove self.now.text.now most) }
    {
        let mut rest = self.text;
        while let Some((first, more)) = first_part(rest) {
            if let Some(number) = above(first, most) {
                return Some(number);
            }
            rest = more;
        }
        above(rest, most)
    }
}

/// Whether each part between the commas is a number from 1, and another one than those after it.
fn are_job_numbers(text: &str) -> bool
    ensures { IsTrue result ↔ AreJobNumbers text.now }
{
    let mut rest = text;
    while let Some((first, more)) = first_part(rest) {
        if !is_another(first, more) {
            return false;
        }
        rest = more;
    }
    number_of(rest).is_some()
}

/// The part of a text in front of its first comma, and what stands after that; none where there is no comma.
fn first_part<'a>(text: &'a str) -> Option<(&'a str, &'a str)>
    ensures parts { MatchOption result (parts_of text.entry.now ≡ text.entry.now ∷ [])
        (λ p. parts_of text.entry.now ≡ p.0.now ∷ parts_of p.1.now) }
    ensures shorter { IfSome result (λ p. length p.1.now < length text.entry.now) }
{
    text.split_once(',')
}

/// Whether the text is a number from 1, and none of the parts between the commas of these others.
fn is_another(text: &str, others: &str) -> bool
    ensures { IsTrue result ↔ IsAnother text.now (parts_of others.now) }
{
    match number_of(text) {
        Some(number) => !is_among(others, number),
        None => false,
    }
}

/// Whether one of the parts between the commas is this number.
fn is_among(text: &str, number: u64) -> bool
    ensures { result ≡ has_number text.now number }
{
    text.split(',').any(|part| is_text_of(part, number))
}

/// Whether the text is this number.
fn is_text_of(text: &str, number: u64) -> bool
    ensures { result ≡ is_number number text.now }
{
    match text.parse::<u64>() {
        Ok(written) => written == number,
        Err(_) => false,
    }
}

/// The number from 1 that the text is, if it is one.
fn number_of(text: &str) -> Option<u64>
    ensures { MatchOption result ((number : ℕ) → IsJobNumber text.now number → ⊥)
        (λ number. IsJobNumber text.now number) }
{
    match text.parse::<u64>() {
        Ok(number) if 0 < number => Some(number),
        _ => None,
    }
}

/// The number that the text is, if it is above this one.
fn above(text: &str, most: u64) -> Option<u64>
    ensures { MatchOption result (IsWithin text.now most) (IsAbove text.now most) }
{
    match text.parse::<u64>() {
        Ok(number) if most < number => Some(number),
        _ => None,
    }
}
