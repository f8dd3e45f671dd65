//! What the signs of plots and charts stand for, as fixed parts of them.

/// Below the field of a plot.
pub(crate) const PLOT_LEGEND: &str =
    r##"<text x="70" y="318" fill="#404040">number of the execution</text>
<circle cx="14" cy="334" r="3" fill="#2a6fb0"/>
<text x="24" y="338" fill="#404040">reading that counts</text>
<rect x="166" y="330" width="8" height="8" fill="#d98200"/>
<text x="180" y="338" fill="#404040">set, written or not</text>
<line x1="320" y1="334" x2="338" y2="334" stroke="#c00020" stroke-dasharray="6 4"/>
<text x="344" y="338" fill="#c00020">an alarm's limit</text>
<line x1="14" y1="346" x2="14" y2="358" stroke="#c00020"/>
<text x="24" y="356" fill="#c00020">the alarm is raised</text>
<line x1="170" y1="346" x2="170" y2="358" stroke="#2e8b57"/>
<text x="180" y="356" fill="#2e8b57">the alarm is cleared</text>
"##;

/// Around the field of a chart.
pub(crate) const CHART_LEGEND: &str =
    r##"<text x="70" y="16" fill="#202020">how many entries each update took at each actor, where its client said it</text>
<text x="70" y="318" fill="#404040">stamp of the saying; the ground is the view</text>
<circle cx="14" cy="334" r="3" fill="#2a6fb0"/>
<text x="24" y="338" fill="#404040">executed by a correct master</text>
<circle cx="230" cy="334" r="3" fill="#d98200"/>
<text x="240" y="338" fill="#404040">answered at its screen</text>
<line x1="10" y1="352" x2="28" y2="352" stroke="#c00020" stroke-dasharray="6 4"/>
<text x="34" y="356" fill="#c00020">the longest delay</text>
<circle cx="230" cy="352" r="4" fill="#c00020"/>
<text x="240" y="356" fill="#c00020">never executed or answered there</text>
"##;
