//! The fixed parts of the page.

/// Before all.
pub(crate) const FRONT: &str = "<!DOCTYPE html>
<html lang=\"en\">
<head>
<meta charset=\"utf-8\">
<meta http-equiv=\"refresh\" content=\"10\">
<title>Grid</title>
<style>
body { font-family: sans-serif; margin: 2em; color: #222; }
table { border-collapse: collapse; }
th, td { text-align: left; padding: 0.2em 1em 0.2em 0; border-bottom: 1px solid #ddd; }
i { font-style: normal; display: inline-block; min-width: 1.2em; padding: 0.1em; margin-right: 0.2em; text-align: center; }
.busy, rect { background: #8fc98f; fill: #8fc98f; }
.starting { background: #f4d58d; }
.closing { background: #cccccc; }
.suspect, .draining { color: #b3541e; }
path { fill: none; stroke: #b3541e; stroke-width: 2; }
line { stroke: #888; }
text { font-size: 12px; }
</style>
</head>
<body>
<h1>Grid</h1>
<p>";

/// Behind the number of sessions, of waiting requests, of nodes, and behind the time.
pub(crate) const SESSIONS: &str = " sessions run, ";

pub(crate) const WAITING: &str = " requests wait, ";

pub(crate) const NODES: &str = " nodes are registered. The last entry was made ";

pub(crate) const SECONDS: &str = " s after the hub's clock began.</p>\n";

/// Before the nodes.
pub(crate) const NODE_TABLE: &str = "<h2>Nodes</h2>
<table>
<tr><th>Node</th><th>Name</th><th>State</th><th>Slots in use</th><th>Free</th></tr>
";

/// Before the requests.
pub(crate) const REQUEST_TABLE: &str = "<h2>Waiting requests</h2>
<table>
<tr><th>Request</th><th>Waits for</th></tr>
";

/// Before a row, between two cells, behind a time that ends a row, behind a row, and behind a table.
pub(crate) const ROW: &str = "<tr><td>";

pub(crate) const CELL: &str = "</td><td>";

pub(crate) const ROW_SECONDS: &str = " s</td></tr>\n";

pub(crate) const ROW_END: &str = "</td></tr>\n";

pub(crate) const TABLE_END: &str = "</table>\n";

/// Around a word of a class, which is the word too.
pub(crate) const CLASS_CELL: &str = "</td><td class=\"";

pub(crate) const SLOT: &str = "<i class=\"";

pub(crate) const CLASS_END: &str = "\">";

pub(crate) const SLOT_END: &str = "</i>";

/// Before the picture of the hour.
pub(crate) const PICTURE: &str = "<h2>The last hour</h2>
<svg viewBox=\"0 0 640 140\" width=\"640\" height=\"140\" role=\"img\">
<line x1=\"20\" y1=\"110\" x2=\"620\" y2=\"110\"/>
<text x=\"20\" y=\"128\">59 minutes ago</text>
<text x=\"560\" y=\"128\">this minute</text>
";

/// The parts of a bar.
pub(crate) const BAR: &str = "<rect x=\"";

pub(crate) const BAR_TOP: &str = "\" y=\"";

pub(crate) const BAR_HEIGHT: &str = "\" width=\"8\" height=\"";

pub(crate) const BAR_END: &str = "\"/>\n";

/// The parts of the line.
pub(crate) const PATH: &str = "<path d=\"M";

pub(crate) const SPACE: &str = " ";

pub(crate) const TO_RIGHT: &str = "H";

pub(crate) const UP_OR_DOWN: &str = "V";

pub(crate) const PATH_END: &str =
    "H620\"/>\n</svg>\n<p>Bars: sessions that were created in a minute, at most ";

/// Behind the most sessions, and behind the most requests.
pub(crate) const MOST_CREATED: &str = ". Line: requests that were not settled, at most ";

pub(crate) const END: &str = ".</p>\n</body>\n</html>\n";
