//! Laws of the definitions: each is the contract of a function that does nothing.

ghost use Rattle.mesh_model.specs.Fields.Laws as laws;

/// The kinds of cells are those that leaf cells give.
pub fn kinds_are_by_cells()
    ensures split { laws.SplitIsByCells }
    ensures three { laws.KindsAreThree }
{}

/// The nodes of a tree are its leaves and their ancestors, in Morton order.
pub fn nodes_are_leaves_and_ancestors()
    ensures members { laws.NodesAreLeavesAndAncestors }
    ensures order { laws.NodesAreInOrder }
{}

/// Each cell's view is the sum of its sub-cells' views, of split and leaf cells and of those inside coarser leaves.
pub fn cell_views_add_up()
    ensures { laws.CellsAddUp }
{}

/// Each face's view is the sum of its subfaces' views.
pub fn face_views_add_up()
    ensures { laws.FacesAddUp }
{}

/// Each edge's view is the sum of its halves' views.
pub fn edge_views_add_up()
    ensures { laws.EdgesAddUp }
{}

/// Where a cell balances, the inner rule balances each of its octants.
pub fn inner_rule_balances()
    ensures octants { laws.OctantsBalance }
    ensures sub_cells { laws.SubCellsBalance }
    ensures cells { laws.AllCellsBalance }
{}

/// What the inner rule and the means read are views.
pub fn inner_rules_read_views()
    ensures sides { laws.SidesAreCalm }
    ensures faces { laws.InnerFacesReadViews }
    ensures edges { laws.MeansReadViews }
{}

/// The circulation of views round a face is the sum of those round its subfaces.
pub fn circulations_add_up()
    ensures { laws.CirculationsAddUp }
{}

/// The signed sum of the circulations round the faces of a cell is 0.
pub fn circulations_cancel()
    ensures { laws.CirculationsCancel }
{}

/// The view of a split cell, face or edge is at most the number of leaf cells times the greatest number, and
/// so at most 2^62.
pub fn split_views_are_bounded()
    ensures cells { laws.SplitCellsAreBounded }
    ensures faces { laws.SplitFacesAreBounded }
    ensures edges { laws.SplitEdgesAreBounded }
    ensures few { laws.LeafCellsAreFew }
{}

/// The start mesh is valid.
pub fn start_is_valid()
    ensures { laws.StartIsValid }
{}

/// The refined set is the least that holds the marked leaves and may be refined under the level rule.
pub fn refined_is_least()
    ensures { laws.RefinedIsLeast }
{}

/// The merged set is the greatest that may be merged beside the refined leaves under the level rule.
pub fn merged_is_greatest()
    ensures { laws.MergedIsGreatest }
{}

/// Regrid of a valid mesh is valid, and keeps the Morton order of leaves.
pub fn regrid_keeps_validity()
    ensures grid { laws.NewGridIsValid }
    ensures mesh { laws.RegridKeepsValidity }
{}

/// The total by blocks is the total by levels, and is that of the views on level 0.
pub fn total_is_by_levels()
    ensures levels { laws.TotalIsByLevels }
    ensures root { laws.TotalIsOfLevelZero }
{}

/// Regrid keeps the total of each variable.
pub fn regrid_keeps_totals()
    ensures { laws.RegridKeepsTotals }
{}

/// The donor of a face is the cell beside it upstream, wrapped on a periodic axis and clamped on another.
pub fn donors_are_wrapped_or_clamped()
    ensures { laws.DonorsAreWrappedOrClamped }
{}

/// What leaf cells lose through outer sides is the outward flux of all leaf faces there.
pub fn outflow_is_by_faces()
    ensures { laws.OutflowIsByFaces }
{}

/// Advect keeps total plus out of each variable.
pub fn advect_conserves()
    ensures { laws.AdvectConserves }
{}

/// Where no content of a leaf cell is below 0, none is after an advect within the Courant limit.
pub fn advect_stays_positive()
    ensures { laws.AdvectStaysPositive }
{}

/// A valid mesh is valid after an advect that leaves its numbers in range.
pub fn advect_keeps_validity()
    ensures { laws.AdvectKeepsValidity }
{}

/// After curl each leaf cell has net flux 0.
pub fn curl_balances()
    ensures { laws.CurlBalances }
{}

/// After uniform each leaf cell has net flux 0.
pub fn uniform_balances()
    ensures { laws.UniformBalances }
{}

/// Induct keeps the net flux of each leaf cell, and so would any edge numbers in the place of those that it takes.
pub fn induct_keeps_balance()
    ensures net { laws.InductKeepsNetFlux }
    ensures any { laws.CirculationKeepsNetFlux }
    ensures balance { laws.InductKeepsBalance }
{}

/// Regrid keeps the net flux of all leaf cells at 0.
pub fn regrid_keeps_balance()
    ensures { laws.RegridKeepsBalance }
{}

/// Where the walk finds no number out of range, all numbers are in range.
pub fn all_numbers_are_walked()
    ensures { laws.AllNumbersAreWalked }
{}

/// A valid mesh is valid with other numbers on its leaf faces, where these are in range.
pub fn new_faces_keep_validity()
    ensures { laws.NewFacesKeepValidity }
{}
