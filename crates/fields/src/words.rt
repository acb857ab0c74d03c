// The two calls as C makes them: answers by 02's numbers, the six numbers in a slice of six words.
ghost use Rattle.std.specs.Prelude.{◌≡◌};
ghost use Rattle.lent.specs.Model.{geometry};
ghost use Rattle.settings.specs.Settings.{answered, tf_settings_read, tf_settings_write};

use crate::NUMBERS;
use crate::numbers::numbers_of;
use crate::read::read;
use crate::refusal::Refusal;
use crate::write::write;
use lent::Geometry;

pub const ACCEPTED: u32 = 0;

// The numbers, or six zeros.
pub fn read_settings(bytes: &[u8], numbers: &mut [u32]) -> u32
    ensures { answered result numbers.new ≡ tf_settings_read bytes.now numbers.old }
{
    if numbers.len() != NUMBERS {
        return u32::from(Refusal::Place);
    }
    match read(bytes) {
        Ok(g) => {
            numbers.copy_from_slice(&numbers_of(g));
            ACCEPTED
        }
        Err(refused) => {
            numbers.copy_from_slice(&[0; NUMBERS]);
            u32::from(refused)
        }
    }
}

pub fn write_settings(g: Geometry, place: &mut [u8]) -> u32
    ensures { answered result place.new ≡ tf_settings_write (geometry g) place.old }
{
    match write(g, place) {
        Ok(()) => ACCEPTED,
        Err(refused) => u32::from(refused),
    }
}
