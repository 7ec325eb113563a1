ghost use Rattle.std.specs.Prelude.{◌≡◌, ℕ, ◌+◌, ◌-◌, ◌<◌, ◌≤◌, ◌^◌, ◌==◌, if◌then◌else◌, max, Some, true, false};
ghost use Rattle.std.specs.Prelude.{length, slice_get, slice_index, map, IfOk};
ghost use Rattle.std.specs.Prelude.{IfSome, Ok};
ghost use Rattle.std.specs.List.{list_any};
ghost use Rattle.csv.specs.Records.{fields_of};
ghost use Rattle.wp_model.specs.TableLines.{MayJoin, add_line, article_in, empty_stock, lies_at, places_named};
ghost use Rattle.wp_model.specs.Tables.{IsReadStock, places_of, row_number_from};
ghost use Rattle.wp_tables.specs.Keys.{IsHashUnder, IsStockKey, made_of};
ghost use Rattle.wp_tables.specs.Reading.{Reads, ReadsBy, at_row, made_by, table_of};
ghost use Rattle.wp_tables.specs.RecordsLeft.{IsReading, kept_left};
ghost use Rattle.wp_tables.specs.StockFile.{article_with_room, free_location, is_inside, line_of_three, stock_after};
ghost use Rattle.wp_tables.specs.StockFile.{stock_heading, stock_line_of, stock_said};

use crate::fault::{RowFault, Why};
use crate::fields::{read_location, read_name, read_number_in, three_texts};
use crate::hashing::FileKey;
use crate::records::Records;
use csv::ByteRecord;
use indexmap::IndexSet;
use std::alloc::Global;
use std::collections::BTreeMap;
use std::hash::BuildHasher;
use std::marker::Model;
use wp_graph::Layout;
use wp_model::{Location, MOST_ON_HAND, MOST_PLACES, MOST_ROWS, Memory, Name, StockLine, StockRow};

fn is_inside(layout: &Layout, location: &Location) -> bool
    ensures { result ≡ is_inside layout.now location.now }
{
    (1..=layout.aisles()).contains(&location.aisle) && (1..=layout.slots()).contains(&location.slot)
}

/// The stock that the lines read so far make, and for each article the number of its rows. Contracts see that stock and
/// the key under which its articles are hashed.
#[derive(Drop)]
struct StockSoFar {
    rows: BTreeMap<Location, StockRow>,
    articles: IndexSet<Name, FileKey>,
    places: Vec<u32>,
}

impl Model for StockSoFar {
    ghost use Rattle.std.specs.Prelude.{◌≡◌, map};
    ghost use Rattle.indexmap.specs.IndexSet.{hasher_of};
    ghost use Rattle.wp_model.specs.Opening as opening;
    ghost use Rattle.wp_tables.specs.Keyed.{Keyed};
    ghost use Rattle.wp_tables.specs.Stock.{IsKeptStock, by_location};

    ghost Value = { Keyed opening.Stock };

    ghost view = { λ s. record {
      made = record {
        rows = map (λ e. e.1) s.rows.entries;
        articles = s.articles.keys;
      };
      key = hasher_of s.articles;
    } };

    ghost invariant = { λ s. (s.rows.entries ≡ by_location (map (λ e. e.1) s.rows.entries)) × IsKeptStock
        (record { rows = map (λ e. e.1) s.rows.entries; articles = s.articles.keys }) s.places.items };
}

/// One more at a place of numbers, or a first at the place after them.
fn count_at(counts: &mut Vec<u32>, place: usize) -> Result<(), Memory>
    requires within { place ≤ length counts.old.items }
    requires room { slice_index counts.old.items place < 2 ^ 32 - 1 }
    ensures counts { IfOk result (λ _. (i : ℕ) → slice_index counts.new.items i
        ≡ slice_index counts.old.items i + (if place == i then 1 else 0)) }
    ensures length { IfOk result (λ _. length counts.new.items
        ≡ max (length counts.old.items) (place + 1)) }
{
    if place < counts.len() {
        counts[place] += 1;
    } else {
        counts.push(1)?;
    }
    Ok(())
}

impl StockSoFar {
    fn new(alloc: Global, key: FileKey) -> StockSoFar
        ensures made { result.made ≡ empty_stock }
        ensures key { result.key ≡ key }
    {
        StockSoFar {
            rows: BTreeMap::new(alloc),
            articles: IndexSet::with_hasher(alloc, key),
            places: Vec::new(alloc),
        }
    }

    fn has_row_at(&self, location: &Location) -> bool
        ensures { result ≡ list_any (lies_at location.now) self.now.made.rows }
    {
        self.rows.contains_key(location)
    }

    fn len(&self) -> usize
        ensures { result ≡ length self.now.made.rows }
    {
        self.rows.len()
    }

    fn places_of(&self, article: &Name) -> u32
        ensures { result ≡ places_named self.now.made article.now }
    {
        match self.articles.get_index_of(article) {
            Some(article) => self.places[article],
            None => 0,
        }
    }

    fn read_location(&self, layout: &Layout, field: &[u8]) -> Result<Location, Why>
        ensures { result ≡ free_location layout.now self.now.made field.now }
    {
        let location = read_location(field)?;
        if !is_inside(layout, &location) {
            return Err(Why::UnknownLocation);
        }
        if self.has_row_at(&location) {
            return Err(Why::LocationTwice);
        }
        Ok(location)
    }

    fn read_article(&self, field: &[u8]) -> Result<Name, Why>
        ensures { result ≡ article_with_room self.now.made field.now }
    {
        let article = read_name(field)?;
        if self.places_of(&article) >= MOST_PLACES {
            return Err(Why::TooManyPlaces);
        }
        Ok(article)
    }

    fn read_three(
        &self,
        layout: &Layout,
        location: &[u8],
        article: &[u8],
        on_hand: &[u8],
    ) -> Result<StockLine, Why>
        ensures { result ≡ line_of_three layout.now self.now.made
            (location.now, article.now, on_hand.now) }
    {
        let location = self.read_location(layout, location)?;
        let article = self.read_article(article)?;
        let on_hand = read_number_in(on_hand, 0, MOST_ON_HAND as u32)?;
        Ok(StockLine {
            location,
            article,
            on_hand,
        })
    }

    fn read_line(&self, layout: &Layout, fields: &ByteRecord) -> Result<StockLine, Why>
        ensures line { result ≡ stock_line_of layout.now self.now.made (fields_of fields.now) }
        ensures joins { IfOk result (MayJoin self.now.made) }
    {
        if self.len() >= MOST_ROWS {
            return Err(Why::TooManyRows);
        }
        let (location, article, on_hand) = three_texts(fields)?;
        self.read_three(layout, location, article, on_hand)
    }

    fn add(self, line: StockLine) -> Result<StockSoFar, Memory>
        requires { MayJoin self.made line }
        ensures made { IfOk result (λ stock. stock.made ≡ add_line self.made line) }
        ensures key { IfOk result (λ stock. stock.key ≡ self.key) }
    {
        let StockSoFar {
            mut rows,
            mut articles,
            mut places,
        } = self;
        let (article, _) = articles.insert_full(line.article)?;
        count_at(&mut places, article)?;
        let row = StockRow {
            location: line.location,
            article: article as u32,
            on_hand: line.on_hand,
        };
        rows.insert(line.location, row)?;
        Ok(StockSoFar {
            rows,
            articles,
            places,
        })
    }

    fn with(self, layout: &Layout, row: u64, fields: &ByteRecord) -> Result<StockSoFar, RowFault>
        ensures made { ReadsBy made_of result (at_row row
            (stock_after layout.now self.made (fields_of fields.now))) }
        ensures key { IfOk result (λ stock. stock.key ≡ self.key) }
    {
        match self.read_line(layout, fields) {
            Ok(line) => Ok(self.add(line)?),
            Err(why) => Err(RowFault { row, why }),
        }
    }

    fn finish(self, alloc: Global) -> Result<Stock, Memory>
        requires { IsStockKey self.made self.key }
        ensures stock { IfOk result (λ stock. stock ≡ self.made) }
        ensures read { IsReadStock self.made }
    {
        let StockSoFar {
            rows,
            articles,
            places,
        } = self;
        Ok(Stock {
            rows: rows.into_values().collect(alloc)?,
            articles,
            places,
        })
    }
}

/// The stock of a warehouse: its rows in the order of their locations, and its articles in the order of their
/// first appearance in the stock file. Rows and articles are numbered from 0. Contracts see the two lists. The articles
/// are hashed under the digest of a file that says this stock.
#[derive(Drop)]
pub struct Stock {
    rows: Vec<StockRow>,
    articles: IndexSet<Name, FileKey>,
    places: Vec<u32>,
}

impl Model for Stock {
    ghost use Rattle.indexmap.specs.IndexSet.{hasher_of};
    ghost use Rattle.wp_model.specs.Opening as opening;
    ghost use Rattle.wp_tables.specs.Keys.{IsStockKey};
    ghost use Rattle.wp_tables.specs.Stock.{IsKeptStock};

    ghost Value = { opening.Stock };

    ghost view = { λ s. record { rows = s.rows.items; articles = s.articles.keys } };

    ghost invariant = { λ s. IsKeptStock (record { rows = s.rows.items; articles = s.articles.keys }) s.places.items
        × IsStockKey (record { rows = s.rows.items; articles = s.articles.keys }) (hasher_of s.articles) };
}

impl Stock {
    /// How many rows there are, at most 25,600.
    pub fn rows(&self) -> u32
        ensures { result ≡ length self.now.rows }
    {
        self.rows.len() as u32
    }

    /// The row with a number.
    pub fn row(&self, i: u32) -> StockRow
        requires { i < length self.now.rows }
        ensures { slice_get self.now.rows i ≡ Some result }
    {
        self.rows[i as usize]
    }

    /// All rows.
    pub fn as_rows(&self) -> &[StockRow]
        ensures rows { result.now ≡ self.now.rows }
        ensures read { IsReadStock self.now }
    {
        self.rows.as_slice()
    }

    /// How many articles there are.
    pub fn articles(&self) -> u32
        ensures { result ≡ length self.now.articles }
    {
        self.articles.len() as u32
    }

    /// The name of the article with a number.
    pub fn article(&self, a: u32) -> Name
        requires { a < length self.now.articles }
        ensures { slice_get self.now.articles a ≡ Some result }
    {
        self.articles.as_slice()[a as usize]
    }

    /// How many rows are of the article with a number, at most 1,000.
    pub fn places(&self, a: u32) -> u32
        requires { a < length self.now.articles }
        ensures { result ≡ places_of self.now.rows a }
    {
        self.places[a as usize]
    }

    /// The number of the row at a location. None comes exactly where there is none.
    pub fn row_at(&self, location: Location) -> Option<u32>
        ensures { result ≡ row_number_from 0 self.now.rows location }
    {
        match self
            .rows
            .binary_search_by_key(&location, |row| row.location)
        {
            Ok(row) => Some(row as u32),
            Err(_) => None,
        }
    }

    /// The number of the article with a name. None comes exactly where there is none.
    pub fn find(&self, name: &Name) -> Option<u32>
        ensures found { result ≡ article_in self.now.articles name.now }
        ensures within { IfSome result (λ article. article < length self.now.articles) }
    {
        match self.articles.get_index_of(name) {
            Some(article) => Some(article as u32),
            None => None,
        }
    }

    /// The key under which the articles are hashed: the digest of a file that says this stock.
    pub fn key(&self) -> FileKey
        ensures { IsStockKey self.now result }
    {
        *self.articles.hasher()
    }

    /// The hash of a name under the key that comes from the bytes of the file.
    pub fn hash_of(&self, name: Name) -> u64
        ensures { IsHashUnder (IsStockKey self.now) name result }
    {
        self.key().hash_one(name)
    }
}

fn read_rows(
    alloc: Global,
    key: FileKey,
    layout: &Layout,
    records: &mut Records,
) -> Result<StockSoFar, RowFault>
    requires { IsReading records.old }
    ensures made { ReadsBy made_of result (made_by (stock_after layout.now) empty_stock
        (kept_left records.old)) }
    ensures key { IfOk result (λ stock. stock.key ≡ key) }
{
    let mut fields = ByteRecord::new(alloc);
    let mut stock = StockSoFar::new(alloc, key);
    while let Some(row) = records.next(&mut fields)? {
        stock = stock.with(layout, row, &fields)?;
    }
    Ok(stock)
}

/// The stock that a stock file says of a layout: the heading `location,article,on_hand`, and then a record for each
/// row. A record is refused, in this order, as `TooManyRows` where it is the 25,601st, `Columns` where it hasn't three
/// fields, `NotUtf8` where one isn't text, `BadName` where the first is no location, `UnknownLocation` where the
/// layout has no such aisle or slot, `LocationTwice`, `BadName` where the second is no name, `TooManyPlaces` where the
/// article has 1,000 rows already, and `BadNumber` or `OutOfRange` where the third is no number 0 to 1,000,000. The
/// first record that is refused is the answer, and so is the first record at all, or row 1 where there is none, as
/// `Columns` where it isn't the heading.
pub fn read_stock(alloc: Global, text: &Vec<u8>, layout: &Layout) -> Result<Stock, RowFault>
    ensures exact { Reads result (stock_said layout.now text.now.items) }
    ensures read { IfOk result IsReadStock }
{
    let mut records = Records::under(alloc, text, b"location", b"article", b"on_hand")?;
    let stock = read_rows(alloc, FileKey::of(text), layout, &mut records)?;
    Ok(stock.finish(alloc)?)
}
