// A motion read from bytes.
ghost use Rattle.std.specs.Prelude.{◌≡◌, ℕ, ◌+◌, ◌≤◌, ◌↔◌, length, Ok};
ghost use Rattle.std.specs.Option.{ok_or};
ghost use Rattle.std.specs.Result.{result_map_both};
ghost use Rattle.chart.specs.Charts.{Motion as AnyMotion, held, held_with, restarts_timer};
ghost use Rattle.chart.specs.Laid.{Laid};
ghost use Rattle.chart.specs.Ranges.{timers_of};
ghost use Rattle.chart.specs.Reading.{sign_of, window_at, motion_of};

use crate::bytes::u32_at;
use crate::types::{Motion, MotionFault, Sign, Timers, UnknownByte, Window};

const MOST_WINDOWS: u8 = 16;

const MOST_NUMBER: u32 = 1_000_000_000;

impl TryFrom<u8> for Sign {
    type Error = UnknownByte;

    ghost try_from_gives = { λ byte r. r ≡ ok_or (sign_of byte) (record { 0 = byte }) };

    fn try_from(byte: u8) -> Result<Sign, UnknownByte> {
        match byte {
            1 => Ok(Sign::AtMost),
            2 => Ok(Sign::Under),
            3 => Ok(Sign::AtLeast),
            4 => Ok(Sign::Over),
            5 => Ok(Sign::Equal),
            _ => Err(UnknownByte(byte)),
        }
    }
}

// The window whose six bytes begin at `at`.
fn window_at(bytes: &[u8], at: u8, timers: Timers) -> Result<Window, MotionFault>
    requires { (at + 6 ≤ length bytes.now) × (at ≤ 98) }
    ensures { result ≡ window_at timers bytes.now at }
{
    let start = at as usize;
    let timer = bytes[start];
    if timer == 0 || timer > timers.count {
        return Err(MotionFault::Timer(at));
    }
    let Ok(sign) = Sign::try_from(bytes[start + 1]) else {
        return Err(MotionFault::Sign(at + 1));
    };
    let number = u32_at(bytes, start + 2);
    if number > MOST_NUMBER {
        return Err(MotionFault::Number(at + 2));
    }
    Ok(Window {
        timer,
        sign,
        number,
    })
}

// What a slot holds that no window has been read into.
const FILLER: Window = Window {
    timer: 1,
    sign: Sign::AtMost,
    number: 0,
};

// Apart from `read_motion`, so that the theorem there is stated once, and is no goal at each return here.
fn motion_of(bytes: &[u8], timers: Timers) -> Result<(Motion, usize), MotionFault>
    ensures { result_map_both held_with (λ e. e) result ≡ motion_of timers bytes.now }
{
    let [count, restarts, ..] = *bytes else {
        return Err(MotionFault::Cut);
    };
    if count > MOST_WINDOWS {
        return Err(MotionFault::Windows);
    }
    if restarts as u32 >= 1u32 << timers.count {
        return Err(MotionFault::Restart);
    }
    let used = 2 + 6 * count as usize;
    if bytes.len() < used {
        return Err(MotionFault::Cut);
    }
    let mut slots = [FILLER; 16];
    // k gives the place. Zipped with `(2u8..).step_by(6)` in its stead, what the slots hold at the end was not proved.
    for (k, slot) in slots[..count as usize].iter_mut().enumerate() {
        *slot = window_at(bytes, 2 + 6 * k as u8, timers)?;
    }
    let motion = Motion {
        slots,
        count,
        restarts,
    };
    Ok((motion, used))
}

// The motion at the front of the bytes and how many bytes it used, or the first fault there.
pub fn read_motion(bytes: &[u8], timers: Timers) -> Result<(Motion, usize), MotionFault>
    ensures value { result_map_both held_with (λ e. e) result ≡ motion_of timers bytes.now }
    ensures laid { (m : AnyMotion) (used : ℕ) → (result_map_both held_with (λ e. e) result ≡ Ok (m, used)) ↔ Laid timers.count bytes.now m used }
{
    motion_of(bytes, timers)
}

impl Timers {
    // That many timers, where a machine may have so many. As with `NonZero::new`, None says all: no error type.
    pub fn new(count: u8) -> Option<Timers>
        ensures { result ≡ timers_of count }
    {
        if count == 0 || count > 8 {
            return None;
        }
        Some(Timers { count })
    }
}

impl Motion {
    // The windows that must hold.
    pub fn windows(&self) -> &[Window]
        ensures { result.now ≡ (held self.now).windows }
    {
        &self.slots[0..self.count as usize]
    }

    // Whether the motion restarts a timer.
    pub fn restarts(&self, timer: u8) -> bool
        ensures { result ≡ restarts_timer (held self.now) timer }
    {
        let bits = self.restarts;
        if timer == 0 || timer > 8 {
            return false;
        }
        bits >> (timer - 1) & 1 == 1
    }
}
