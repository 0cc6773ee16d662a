//! What a net promises of a box, of a sum over its places, and of two sums; and that the truth is the mean
//! coat of the panel. The functions do nothing when they are run; their contracts are the theorems.
#![tactic(auto)]

ghost use Rattle.radius.specs.Claims.{BoxShares, PanelAdds, PanelWhole, SumsNear, SumsAgree};

/// Each box from the panel's corner holds its share of a net's places: of a net of level m, a number that is
/// off from 2^m times the box's part of the panel by m + 1 at most. The box's sides are from 1 to 65,536, in
/// units of 1 / 65,536 of the panel's side.
pub fn show_boxes()
    ensures { BoxShares }
{}

/// The sum of a map's coat over the first n places of a net is within its radius of the truth. The radius is
/// (m + 1)·W + (2^m − n)·W, with the net's level m and the map's weight W, and 0 in place of 2^m − n for an n
/// over 2^m; the truth is 2^m times the mean coat of the panel.
pub fn show_sums()
    ensures { SumsNear }
{}

/// Two sums, over places of any two nets, of maps whose terms are the same up to order, agree within their
/// radii: |S·2^m' − S'·2^m| is at most R·2^m' + R'·2^m, the second one's numbers primed.
pub fn show_agreement()
    ensures { SumsAgree }
{}

/// The coat of a map added over every place of the panel is its integral: w·U·V added over the map's terms,
/// 2^32 times the mean coat.
pub fn show_mean()
    ensures { PanelAdds }
{}

/// The list of the panel's places has each of the 2^32 places once, and no other.
pub fn show_panel()
    ensures { PanelWhole }
{}
