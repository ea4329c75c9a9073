//! The first sequence number of an opening.

ghost use Rattle.std.specs.Prelude.{◌≡◌, ℕ, IfErr, IfOk};
ghost use Rattle.rasta_run.specs.FirstNumber.{TakesFirstNumber};
ghost use Rattle.rasta_words.specs.declared.status.Fault.TheVariants as fault;

use rasta_words::Fault;
use std::fs;
use std::io::Read;
use std::rt::Files;

/// Where the system gives random bytes.
const RANDOM: &str = "/dev/urandom";

/// A source of numbers.
pub trait NumberSource {
    // What a draw does: the number, and the source afterwards.
    ghost draws: { Self → ℕ → Self → Type 0 };

    /// Draws a number.
    ///
    /// # Errors
    ///
    /// - `File` if the source gives no number.
    fn draw(&mut self) -> Result<u32, Fault>
        // A draw changes `self` as `draws` says for its number.
        ensures drawn { IfOk result (λ number. draws self.old number self.new) }
        // `draw` fails only with `File`.
        ensures refused { IfErr result (λ why. why ≡ fault.File) };
}

/// The random numbers of the system.
#[derive(Clone, Copy, Drop)]
pub struct Random<'a, R: Files> {
    /// The system.
    pub system: &'a R,
}

impl<R: Files> NumberSource for Random<'_, R> {
    ghost draws = { λ _ _ _. Unit {0} };

    fn draw(&mut self) -> Result<u32, Fault> {
        let mut octets = [0u8; 4];
        let Ok(mut file) = fs::open(self.system, RANDOM) else {
            return Err(Fault::File);
        };
        match file.read_exact(&mut octets) {
            Ok(()) => Ok(u32::from_le_bytes(octets)),
            Err(_) => Err(Fault::File),
        }
    }
}

/// Returns the number that the settings have, or else the next one of a source.
///
/// # Errors
///
/// - `File` if the source gives no number.
pub fn first_number<D: NumberSource>(source: &mut D, stated: Option<u32>) -> Result<u32, Fault>
    // `first_number` returns the number of the settings, and leaves the source as it is; without one it draws once.
    ensures begins { IfOk result (λ number. TakesFirstNumber D.draws stated source.old number source.new) }
    // `first_number` fails only with `File`.
    ensures refused { IfErr result (λ why. why ≡ fault.File) }
{
    match stated {
        Some(number) => Ok(number),
        None => source.draw(),
    }
}
