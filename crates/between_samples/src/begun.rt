// The calls on setting values by themselves: a start, and the writer on two buffers.

use relay::Relay;
use setting::Setting;

// A start, and the values written to a buffer of 600 bytes and to one of 511, a line each.
pub fn begin_block(v: Setting) {
    programs::print("start");
    programs::print_verdict(Relay::start(v).answer);
    programs::print("write");
    programs::print_verdict(setting_block::writer::write_setting(v, &mut [0u8; 600]));
    programs::print("short");
    programs::print_verdict(setting_block::writer::write_setting(v, &mut [0u8; 511]));
}
