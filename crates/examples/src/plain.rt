// A made-up kind whose messages are plain numbers, each in two octets: any two octets are a message, and so it has no cause.
ghost use Rattle.examples.specs.Plain.{plain};
ghost use Rattle.examples.specs.PlainLaws.{plain_lawful, plain_compare};

use refusal::Refusal;
use type3::Kind;

pub struct Plain;

impl Kind for Plain {
    type Message = u16;

    ghost model = { plain };

    ghost lawful = { plain_lawful };

    ghost compares = { plain_compare };

    fn message_type() -> u8 {
        62
    }

    fn body_len() -> usize {
        2
    }

    // none
    fn reserved(_place: usize) -> u8 {
        0
    }

    fn write_body(message: u16, out: &mut [u8]) {
        out.copy_from_slice(&[(message / 256) as u8, (message % 256) as u8]);
    }

    // never
    fn gap(_message: u16) -> Option<u32> {
        None
    }

    fn read_body(octets: &[u8]) -> Result<u16, Refusal> {
        Ok(u16::from(octets[0]) * 256 + u16::from(octets[1]))
    }
}
