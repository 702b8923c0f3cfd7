//! What the shapes of a picture mean.
use crate::text::Text;

/// The legend, as it stands at the top left. Bars are as high and as low in their row as in a lane.
const LEGEND: &str = "<rect class='poll' x='8' y='2' width='24' height='16'/>
<text x='38' y='16'>a poll</text>
<rect class='drop' x='98' y='2' width='24' height='16'/>
<text x='128' y='16'>a drop</text>
<rect class='wait' x='188' y='6' width='24' height='8'/>
<text x='218' y='16'>waits</text>
<rect class='hold' x='308' y='14' width='24' height='4'/>
<text x='338' y='16'>holds the right</text>
<rect class='empty' x='448' y='2' width='24' height='16'/>
<text x='478' y='16'>cell empty</text>
<rect class='held' x='558' y='2' width='24' height='16'/>
<text x='588' y='16'>cell held</text>
<rect class='set' x='658' y='2' width='24' height='16'/>
<text x='688' y='16'>value set</text>
<circle class='pending' cx='20' cy='32' r='4'/>
<text x='38' y='36'>init: Pending</text>
<circle class='value' cx='120' cy='32' r='4'/>
<text x='128' y='36'>a value</text>
<rect class='error' x='196' y='28' width='8' height='8'/>
<text x='218' y='36'>an error</text>
<path class='wake' d='M320 26V38L317 32H323L320 38Z'/>
<text x='338' y='36'>calls a waiter</text>
<path class='look' d='M460 26L456 38H464Z'/>
<text x='478' y='36'>a look, and what it found</text>
<path class='look' d='M670 38L666 26H674Z'/>
<text x='688' y='36'>the owner calls</text>
<text x='8' y='56'>At the end of a task's last poll stands its answer. \
Each line of the script stands below its number. A word without room is left out.</text>";

/// Draws the legend, below this height.
pub fn draw_legend(top: u64, svg: &mut Text) {
    svg.fill("<g transform='translate(0 {})'>\n", &[top]);
    svg.add(LEGEND);
    svg.add("</g>\n");
}
