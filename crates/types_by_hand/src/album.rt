//! A struct that holds a list of structs and an enum, with a field that is left out if it is
//! `None`.

ghost use Rattle.std.specs.Prelude.{Some, [], ◌∷◌, codes, pos, string_bytes, false, true};
ghost use Rattle.serde_ipld_dagcbor.specs.Tree.{text, integer, entries_tree};
ghost use Rattle.serde_ipld_dagcbor.specs.Trees.{field, optional};
ghost use Rattle.types_by_hand.specs.Album.{TrackView, AlbumView};
ghost use Rattle.types_by_hand.specs.Album.{format_variants, format_shape, track_shape, album_shape};
ghost use Rattle.types_by_hand.specs.declared.album.Format.{Format};
ghost use Rattle.types_by_hand.specs.declared.album.Format.TheVariants.{Vinyl, Tape, Disc};

use serde_ipld_dagcbor::{
    DecodeError, Deserialize, Deserializer, EnumAccessor, Field, Optional, Read, ReadResult,
    Required, Serialize, Serializer, Shown, Variants, Write, WriteResult, read_enum, read_struct,
    write_struct,
};
use std::alloc::Global;

/// The medium of an album.
#[derive(Clone, Copy, Debug, PartialEq, Eq)]
pub enum Format {
    Vinyl,
    Tape,
    Disc,
}

/// One track of an album.
#[derive(Debug, Drop)]
pub struct Track {
    pub note: Option<String>,
    pub title: String,
    pub seconds: u32,
}

/// An album, whose year may be unknown.
#[derive(Debug, Drop)]
pub struct Album {
    pub year: Option<u16>,
    pub title: String,
    pub format: Format,
    pub tracks: Vec<Track>,
}

impl Serialize for Format {
    ghost tree = { λ f. elim f [
      | Vinyl ↦ Some (text (codes "Vinyl"))
      | Tape ↦ Some (text (codes "Tape"))
      | Disc ↦ Some (text (codes "Disc"))
    ] };

    ghost takes_memory = { false };

    fn serialize<W: Write>(&self, _alloc: Global, ser: &mut Serializer<W>) -> WriteResult<(), W> {
        match self {
            Format::Vinyl => ser.serialize_unit_variant("Format", 0, "Vinyl"),
            Format::Tape => ser.serialize_unit_variant("Format", 1, "Tape"),
            Format::Disc => ser.serialize_unit_variant("Format", 2, "Disc"),
        }
    }
}

impl Serialize for Track {
    ghost tree = { λ t. entries_tree
        (optional (codes "note") (λ s. Some (text (string_bytes s))) t.note
        (field (codes "title") (Some (text (string_bytes t.title)))
        ∷ field (codes "seconds") (Some (integer (pos t.seconds))) ∷ [])) };

    ghost takes_memory = { true };

    fn serialize<W: Write>(&self, alloc: Global, ser: &mut Serializer<W>) -> WriteResult<(), W> {
        let fields = (
            Optional("note", &self.note),
            (
                Field("title", &self.title),
                (Field("seconds", &self.seconds), ()),
            ),
        );
        write_struct(alloc, fields, ser)
    }
}

impl Serialize for Album {
    ghost tree = { λ a. entries_tree
        (optional (codes "year") (λ n. Some (integer (pos n))) a.year
        (field (codes "title") (Some (text (string_bytes a.title)))
        ∷ field (codes "format") (⟦<Format as Serialize>⟧.tree a.format)
        ∷ field (codes "tracks") (⟦<Vec<Track> as Serialize>⟧.tree a.tracks) ∷ [])) };

    ghost takes_memory = { true };

    fn serialize<W: Write>(&self, alloc: Global, ser: &mut Serializer<W>) -> WriteResult<(), W> {
        let fields = (
            Optional("year", &self.year),
            (
                Field("title", &self.title),
                (
                    Field("format", &self.format),
                    (Field("tracks", &self.tracks), ()),
                ),
            ),
        );
        write_struct(alloc, fields, ser)
    }
}

impl Shown for Format {
    ghost View = { Format };

    ghost meaning = { λ f. f };

    ghost shape = { format_shape };
}

impl Shown for Track {
    ghost View = { TrackView };

    ghost meaning = { λ t. (
      ⟦<Option<String> as Shown>⟧.meaning t.note,
      (string_bytes t.title, (t.seconds, tt)),
    ) };

    ghost shape = { track_shape };
}

impl Shown for Album {
    ghost View = { AlbumView };

    ghost meaning = { λ a. (
      ⟦<Option<u16> as Shown>⟧.meaning a.year,
      (
        string_bytes a.title,
        (a.format, (⟦<Vec<Track> as Shown>⟧.meaning a.tracks, tt)),
      ),
    ) };

    ghost shape = { album_shape };
}

impl<'de> Variants<'de> for Format {
    ghost View = { Format };

    ghost meaning = { λ f. f };

    ghost shape = { format_variants };

    fn read_variant<R: Read>(
        _alloc: Global,
        name: &str,
        variant: EnumAccessor,
        de: &mut Deserializer<'de, R>,
    ) -> ReadResult<Format, R> {
        match name {
            "Vinyl" => {
                variant.unit_variant(de)?;
                Ok(Format::Vinyl)
            }
            "Tape" => {
                variant.unit_variant(de)?;
                Ok(Format::Tape)
            }
            "Disc" => {
                variant.unit_variant(de)?;
                Ok(Format::Disc)
            }
            _ => Err(DecodeError::custom("unknown variant")),
        }
    }
}

impl<'de> Deserialize<'de> for Format {
    fn deserialize<R: Read>(alloc: Global, de: &mut Deserializer<'de, R>) -> ReadResult<Self, R> {
        read_enum(alloc, "Format", &["Vinyl", "Tape", "Disc"], de)
    }
}

impl<'de> Deserialize<'de> for Track {
    fn deserialize<R: Read>(alloc: Global, de: &mut Deserializer<'de, R>) -> ReadResult<Self, R> {
        let names = &["note", "title", "seconds"];
        let (note, (Required(title), (Required(seconds), ()))) = read_struct(
            alloc, "Track", names, de,
        )?;
        Ok(Track {
            note,
            title,
            seconds,
        })
    }
}

impl<'de> Deserialize<'de> for Album {
    fn deserialize<R: Read>(alloc: Global, de: &mut Deserializer<'de, R>) -> ReadResult<Self, R> {
        let names = &["year", "title", "format", "tracks"];
        let (year, (Required(title), (Required(format), (Required(tracks), ())))) = read_struct(
            alloc, "Album", names, de,
        )?;
        Ok(Album {
            year,
            title,
            format,
            tracks,
        })
    }
}
