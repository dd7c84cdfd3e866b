// Laws of the order of tiles by their keys (this project's own).
ghost use Rattle.tiling_laws.specs.Order.{KeysAreAnOrder, AllTilesAreInKeyOrder, AllTilesAreThere, RisingListsAreOne};

/// Keys are a strict total order of the tiles of a scheme.
pub fn keys_are_a_strict_order()
    ensures { KeysAreAnOrder }
{}

/// Along the list of all tiles each key is below those of all later tiles.
pub fn keys_rise_along_all_tiles()
    ensures { AllTilesAreInKeyOrder }
{}

/// The list of all tiles has each tile of the levels 0 to last, and nothing else.
pub fn all_tiles_are_in_their_list()
    ensures { AllTilesAreThere }
{}

/// Two lists in key order which have the same tiles are one list.
pub fn rising_lists_are_one()
    ensures { RisingListsAreOne }
{}
