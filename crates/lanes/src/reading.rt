// A reading: a status byte and the data byte read after it, as status * 256 + data.
ghost use Rattle.std.specs.Prelude.{◌≡◌, ◌<◌};
ghost use Rattle.lanes.specs.Readings.{status, data_byte, bit, port_of, aux_error, OnePort};

// Bits of the status byte, by number.
const OUTPUT_FULL: u32 = 0;

const ERROR: u32 = 2;

const AUX: u32 = 5;

fn status_of(reading: u16) -> u8
    ensures { result ≡ status reading }
{
    let [status, _] = reading.to_be_bytes();
    status
}

pub(crate) fn data_of(reading: u16) -> u8
    ensures { result ≡ data_byte reading }
{
    let [_, data] = reading.to_be_bytes();
    data
}

fn is_set(byte: u8, k: u32) -> bool
    requires { k < 8 }
    ensures { result ≡ bit k byte }
{
    (byte >> k) & 1 == 1
}

// The port whose device gave the data byte, if one did and the byte is good. A number, as recordings and their
// readers have it.
pub fn port_of(reading: u16) -> Option<u8>
    ensures value { result ≡ port_of reading }
    ensures one_port { OnePort reading }
{
    let status = status_of(reading);
    let full = is_set(status, OUTPUT_FULL);
    let aux = is_set(status, AUX);
    let error = is_set(status, ERROR);
    (full && aux && !error).then_some(status >> 6)
}

// Whether OBF, AUX and Error are all set: a fault in Multiplexed mode, or any AUX byte in Legacy mode.
pub fn is_aux_error(reading: u16) -> bool
    ensures { result ≡ aux_error reading }
{
    let status = status_of(reading);
    is_set(status, OUTPUT_FULL) && is_set(status, AUX) && is_set(status, ERROR)
}
