//! The look of a picture: its style sheet and its legend.

/// How text, lines and marks look.
pub const STYLE: &[u8] =
    b"text{font-family:sans-serif;fill:#222}.paper{fill:#fff}.g{fill:#f1f0e8}.h{font-size:12px;fill:#666}.n{font-size:13px}.p{stroke:#444;stroke-width:1.4}.z{stroke:#bbb;stroke-dasharray:1 5}.a,.o,.u{fill:none;stroke-width:1.5}.o{stroke-dasharray:4 3}.k{stroke-dasharray:2 4}.e{fill:none;stroke-width:1.5}.l{font-size:12px;stroke:#fff;stroke-width:3px;paint-order:stroke}.b{stroke:#fff}.d{font-size:10px;text-anchor:middle}.v{fill:#222}.w{font-size:10px;stroke:#fff;stroke-width:2px;paint-order:stroke}.x{fill:none;stroke:#c00;stroke-width:3}.r{fill:none;stroke:#aaa;stroke-width:1.5}.q{font-size:10px;fill:#777;text-anchor:middle}";

/// The colours of the eight senders, and of acknowledgements.
pub const COLOUR_STYLE: &[u8] =
    b".f0{fill:#0072b2}.f1{fill:#d55e00}.f2{fill:#009e73}.f3{fill:#cc79a7}.f4{fill:#e69f00}.f5{fill:#56b4e9}.f6{fill:#7a5195}.f7{fill:#6b6b00}.s0{stroke:#0072b2}.s1{stroke:#d55e00}.s2{stroke:#009e73}.s3{stroke:#cc79a7}.s4{stroke:#e69f00}.s5{stroke:#56b4e9}.s6{stroke:#7a5195}.s7{stroke:#6b6b00}.k{stroke:#888}.t0,.t1,.t2,.t6,.t7{fill:#fff}.t3,.t4,.t5{fill:#000}";

/// The class and the colour of each kind of arrow. Its tip has the same colour.
pub const TIPS: &[(&[u8], &[u8])] = &[
    (b"s0", b"#0072b2"),
    (b"s1", b"#d55e00"),
    (b"s2", b"#009e73"),
    (b"s3", b"#cc79a7"),
    (b"s4", b"#e69f00"),
    (b"s5", b"#56b4e9"),
    (b"s6", b"#7a5195"),
    (b"s7", b"#6b6b00"),
    (b"k", b"#888"),
];

/// The width of the legend, with its margins.
pub const LEGEND_WIDTH: u64 = 680;

/// The height of the legend.
pub const LEGEND_HEIGHT: u64 = 128;

/// What each kind of mark means, in two columns.
pub const LEGEND: &[u8] =
    b"<circle class='f0' cx='6' cy='10' r='5'/><text class='l' x='16' y='14'>ab</text><text class='h' x='56' y='14'>node 0 broadcasts an item of two letters</text>
<path class='a s0' d='M340 10L384 10'/><text class='h' x='396' y='14'>a frame with an item of node 0 arrives</text>
<circle class='f0' cx='6' cy='30' r='5'/><text class='l' x='16' y='34'>7:4</text><text class='h' x='56' y='34'>it proposes value 4 in instance 7</text>
<path class='a k' d='M340 30L384 30'/><text class='h' x='396' y='34'>an acknowledgement arrives</text>
<rect class='b f0' x='0' y='44' width='44' height='13' rx='3'/><text class='d t0' x='22' y='54'>0.1</text><text class='h' x='56' y='54'>node 0's item 1 is delivered; its first is item 0</text>
<path class='o s0' d='M340 50L372 50'/><path class='e s0' d='M374 46l8 8m0 -8l-8 8'/><text class='h' x='396' y='54'>a frame never arrives</text>
<path class='v' d='M6.5 63.5l6.5 6.5l-6.5 6.5l-6.5 -6.5z'/><text class='w' x='17' y='74'>4</text><text class='h' x='56' y='74'>value 4 is decided</text>
<path class='u s0' d='M340 70L372 70'/><text class='h' x='396' y='74'>a frame arrives by an event that is not shown</text>
<rect class='g' x='0' y='82' width='44' height='16'/><text class='h' x='4' y='94'>settle</text><text class='h' x='56' y='94'>rounds that bring all that is owed</text>
<path class='x' d='M345 83l14 14m0 -14l-14 14'/><text class='h' x='396' y='94'>a node crashes</text>
<text class='l' x='0' y='114'>close</text><text class='h' x='56' y='114'>the last item of its sender</text>
<path class='r' d='M340 107l6 6m0 -6l-6 6'/><text class='q' x='356' y='114'>5</text><text class='h' x='396' y='114'>an event is refused with code 5</text>
";
