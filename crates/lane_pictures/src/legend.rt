//! What the signs of a picture stand for, as a fixed part of it.
ghost use Rattle.std.specs.Prelude.{◌≡◌, ◌++◌, OnOk, string_bytes};
ghost use Rattle.lane_pictures.specs.Drawing.{legend_text, legend_words};

use plain_lists::Want;

/// Below the rows of a picture.
pub(crate) const LEGEND: &str =
    r##"<text x="12" y="16" fill="#202020">A frame taken; a short line comes from a row above:</text>
<line x1="10" y1="30" x2="22" y2="30" stroke="#2a6fb0"/>
<circle cx="22" cy="30" r="3" fill="#2a6fb0"/>
<text x="32" y="34" fill="#404040">update, porequest, poack, posummary</text>
<line x1="10" y1="47" x2="22" y2="47" stroke="#2e8b57"/>
<circle cx="22" cy="47" r="3" fill="#2e8b57"/>
<text x="32" y="51" fill="#404040">preprepare, prepare, commit</text>
<line x1="10" y1="64" x2="22" y2="64" stroke="#d98200"/>
<circle cx="22" cy="64" r="3" fill="#d98200"/>
<text x="32" y="68" fill="#404040">voucher</text>
<line x1="10" y1="81" x2="22" y2="81" stroke="#8a3fb0"/>
<circle cx="22" cy="81" r="3" fill="#8a3fb0"/>
<text x="32" y="85" fill="#404040">suspect, report, newview</text>
<line x1="10" y1="98" x2="22" y2="98" stroke="#9a9a9a"/>
<circle cx="22" cy="98" r="3" fill="#9a9a9a"/>
<text x="32" y="102" fill="#404040">ping, pong, rtt, tatreport, tatbound</text>
<line x1="10" y1="115" x2="22" y2="115" stroke="#8b5a2b"/>
<circle cx="22" cy="115" r="3" fill="#8b5a2b"/>
<text x="32" y="119" fill="#404040">askupdate, give, askorder, giveordered</text>
<line x1="10" y1="132" x2="22" y2="132" stroke="#008b8b"/>
<circle cx="22" cy="132" r="3" fill="#008b8b"/>
<text x="32" y="136" fill="#404040">mark</text>
<circle cx="330" cy="12" r="5" fill="#c00020"/>
<text x="342" y="16" fill="#c00020">taken, and nobody said it</text>
<rect x="326" y="25" width="8" height="8" fill="#c00020"/>
<text x="342" y="33" fill="#c00020">cried by an intruded master</text>
<rect x="329" y="41" width="2" height="10" fill="#404040"/>
<text x="342" y="50" fill="#404040">tick of the actor's clock</text>
<rect x="326" y="59" width="8" height="8" fill="#000000"/>
<text x="342" y="67" fill="#404040">an operator's command</text>
<rect x="326" y="78" width="8" height="4" fill="#2a6fb0"/>
<text x="342" y="84" fill="#404040">change in the field</text>
<circle cx="470" cy="80" r="4" fill="#ffffff" stroke="#2a6fb0" stroke-width="2"/>
<text x="482" y="84" fill="#404040">poll</text>
<circle cx="330" cy="97" r="6" fill="#ffffff" stroke="#404040" stroke-width="2"/>
<text x="342" y="101" fill="#404040">restart</text>
<circle cx="470" cy="97" r="1" fill="#404040"/>
<text x="482" y="101" fill="#404040">skipped</text>
<text x="326" y="118" fill="#2e8b57">2</text>
<text x="342" y="118" fill="#404040">below a lane: updates executed</text>
<text x="326" y="135" fill="#000000">1</text>
<text x="342" y="135" fill="#404040">above: values written, </text>
<text x="470" y="135" fill="#d98200">1</text>
<text x="482" y="135" fill="#404040">notices shown</text>
"##;

/// The legend of a picture, from so far down on.
#[tactic(auto, unfolding(crate::specs::Drawing::legend_text))]
pub(crate) fn put_legend(text: &mut String, y: u64) -> Result<(), Want>
    ensures { OnOk result (string_bytes text.new ≡ string_bytes text.old ++ legend_text y) }
{
    write!(text, "<g transform=\"translate(0,{y})\">\n")?;
    put_words(text)?;
    text.push_str("</g>\n")?;
    Ok(())
}

#[tactic(auto, unfolding(crate::specs::Drawing::legend_words))]
fn put_words(text: &mut String) -> Result<(), Want>
    ensures { OnOk result (string_bytes text.new ≡ string_bytes text.old ++ legend_words) }
{
    text.push_str(LEGEND)?;
    Ok(())
}
