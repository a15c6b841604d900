// The classes of the device codes.

#![tactic(auto)]

ghost use Rattle.std.specs.Prelude.{◌≡◌};
ghost use Rattle.device.specs.Classes.{class_of};

// The class of a device code, 1 to 21; 0 for a code that is not assigned.
pub fn class_of(code: u8) -> u8
    ensures { result ≡ class_of code }
{
    match code {
        0 => 1,
        1..=8 => 2,
        10..=11 => 3,
        12..=13 => 4,
        14..=15 => 5,
        16..=17 => 6,
        18..=19 => 7,
        20..=23 => 8,
        30..=33 => 9,
        40..=43 => 10,
        50..=53 => 11,
        60..=67 => 12,
        70..=73 => 13,
        80..=87 => 14,
        90..=93 => 15,
        94..=95 => 16,
        100..=109 => 17,
        110..=117 => 18,
        240..=244 => 19,
        245..=254 => 20,
        255 => 21,
        _ => 0,
    }
}
