//! The comma and another separator, exchanged.
//!
//! A text whose fields are parted by another byte than the comma has the records of the text in which the two are
//! exchanged, with the same exchange in each field (`proofs/Exchanges`). So only who reads the bytes and who has the fields
//! know of that byte, and what lies between looks for commas.

ghost use Rattle.std.specs.Prelude.{◌≡◌, map};
ghost use Rattle.csv_rows.specs.Readings.{exchanged};

/// Puts the separator for each comma and a comma for each separator. Done twice it changes nothing. In linear time.
pub fn exchange(bytes: &mut [u8], separator: u8)
    ensures { bytes.new ≡ map (exchanged separator) bytes.old }
{
    for at in 0..bytes.len() {
        bytes[at] = exchanged(bytes[at], separator);
    }
}

/// A byte after the exchange: one exclusive or takes each of the two to the other.
#[inline(always)]
fn exchanged(byte: u8, separator: u8) -> u8
    ensures { result ≡ exchanged separator byte }
{
    if byte == b',' || byte == separator {
        byte ^ (b',' ^ separator)
    } else {
        byte
    }
}
