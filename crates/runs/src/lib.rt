// Runs of the two-valve plan, by computation: the sheet's listing, specs/Listing.antt, and a longer one on many devices, specs/Run.antt.

#![tactic(auto)]
