ghost use Rattle.std.specs.Prelude.{◌≡◌, ◌≤◌, length, take};
ghost use Rattle.station_files.specs.WholeLines.{whole_lines};

const LINE_FEED: u8 = 10;

/// How many bytes the whole lines of a text have: all up to its last line feed, and with it.
pub fn whole_length(text: &[u8]) -> usize
    ensures within { result ≤ length text.now }
    ensures lines { take result text.now ≡ whole_lines text.now }
    ensures whole { whole_lines (take result text.now) ≡ take result text.now }
{
    let mut whole = text.len();
    while whole > 0 {
        if text[whole - 1] == LINE_FEED {
            return whole;
        }
        whole -= 1;
    }
    0
}
