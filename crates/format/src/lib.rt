// What a listing is, what reading one means, and the laws of listings.

#![tactic(auto)]

ghost use Rattle.format.specs.Reading.{EveryListingFits, ListingOrLine, OneContents, OneLine};

// Two different contents never have the same listing.
pub fn one_contents()
    ensures { OneContents }
{}

// Only one line is the refused one.
pub fn one_line()
    ensures { OneLine }
{}

// Any bytes are a listing, or are refused at a line.
pub fn listing_or_line()
    ensures { ListingOrLine }
{}

// No listing is longer than 20,000 bytes.
pub fn every_listing_fits()
    ensures { EveryListingFits }
{}
