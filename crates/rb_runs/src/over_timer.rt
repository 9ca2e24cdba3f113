/// Calls a function over the timer of this kind. The function's first type parameter, written `_`,
/// is the timer's.
///
/// Only this macro knows which type each kind of timer is. A crate that calls it depends on the
/// crates of all timers.
#[macro_export]
macro_rules! over_timer {
    ($kind:expr, $function:ident::<_ $(, $type:ty)*>($($argument:expr),* $(,)?) $(,)?) => {
        match $kind {
            rb_options::TimerKind::List => {
                $function::<rb_timer::ListTimer $(, $type)*>($($argument),*)
            }
            rb_options::TimerKind::Heap => {
                $function::<rb_binary::BinaryTimer $(, $type)*>($($argument),*)
            }
            rb_options::TimerKind::Pairing => {
                $function::<rb_pairing::PairingTimer $(, $type)*>($($argument),*)
            }
            rb_options::TimerKind::Wheel => {
                $function::<rb_wheel::WheelTimer $(, $type)*>($($argument),*)
            }
        }
    };
}
