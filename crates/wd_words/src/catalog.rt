//! The SQL that makes a schema file from a database.

/// A query of PostgreSQL's catalog whose rows are the text of a schema: a readable `CREATE TABLE` for each table that a name without a
/// schema finds.
pub const SCHEMA_OF_DATABASE: &str =
    "-- Prints the tables of a PostgreSQL database as wdcheck and wdreport read them, those that a name without a schema finds:
--     psql -qAt -f <(wdreport schema) DATABASE > schema.sql
-- A type that they lack becomes the nearest, and a comment names it: numbers with a fraction BIGINT (count in the smallest unit),
-- all else TEXT. Left out are keys over expressions and those of some rows only; of a table from which others inherit its keys and
-- NOT NULL, since a query reads the rows of the others too; partitions, which are read as the whole; views and foreign tables.
WITH RECURSIVE bases (type, base) AS (
    SELECT t.oid, t.oid FROM pg_type AS t WHERE t.typtype <> 'd'
    UNION ALL
    SELECT t.oid, b.base FROM pg_type AS t JOIN bases AS b ON b.type = t.typbasetype WHERE t.typtype = 'd'
), relations AS (
    SELECT c.oid, c.relname, c.relkind,
           CASE WHEN quote_ident(c.relname) <> c.relname OR c.relname IN ('by', 'groups', 'over', 'partition', 'range', 'rows')
                THEN chr(34) || replace(c.relname, chr(34), repeat(chr(34), 2)) || chr(34) ELSE c.relname END AS name,
           c.relkind = 'r' AND EXISTS (SELECT 1 FROM pg_inherits AS h WHERE h.inhparent = c.oid) AS has_heirs
    FROM pg_class AS c JOIN pg_namespace AS n ON n.oid = c.relnamespace
    WHERE c.relkind IN ('r', 'p', 'm', 'v', 'f') AND NOT c.relispartition AND pg_table_is_visible(c.oid)
          AND n.nspname <> 'information_schema' AND n.nspname !~ '^pg_'
), attributes AS (
    SELECT r.oid, a.attnum, a.attnotnull AND NOT r.has_heirs AS is_not_null, b.base,
           CASE WHEN quote_ident(a.attname) <> a.attname OR a.attname IN ('by', 'groups', 'over', 'partition', 'range', 'rows')
                THEN chr(34) || replace(a.attname, chr(34), repeat(chr(34), 2)) || chr(34) ELSE a.attname END AS name,
           regexp_replace(format_type(a.atttypid, a.atttypmod), '[[:space:]]', ' ', 'g') AS type_said,
           to_jsonb(l) ->> 'collisdeterministic' = 'false' AS is_loose
    FROM relations AS r
    JOIN pg_attribute AS a ON a.attrelid = r.oid AND a.attnum > 0 AND NOT a.attisdropped
    JOIN bases AS b ON b.type = a.atttypid
    LEFT JOIN pg_collation AS l ON l.oid = a.attcollation
    WHERE r.relkind IN ('r', 'p', 'm')
), lines AS (
    SELECT a.oid, 1 AS part, a.attnum::bigint AS place,
           a.name || CASE WHEN a.base = 'int2'::regtype THEN ' SMALLINT' WHEN a.base = 'int4'::regtype THEN ' INTEGER'
               WHEN a.base = 'bool'::regtype THEN ' BOOLEAN'
               WHEN a.base IN ('int8'::regtype, 'oid'::regtype, 'numeric'::regtype, 'money'::regtype, 'float4'::regtype,
                               'float8'::regtype) THEN ' BIGINT'
               ELSE ' TEXT' END || CASE WHEN a.is_not_null THEN ' NOT NULL' ELSE '' END AS line,
           CASE WHEN a.base IN ('int2'::regtype, 'int4'::regtype, 'int8'::regtype, 'bool'::regtype, 'text'::regtype,
                                'varchar'::regtype) THEN '' ELSE ' -- ' || a.type_said END ||
           CASE WHEN a.is_loose THEN ' -- texts that differ may be equal by its collation' ELSE '' END AS remark
    FROM attributes AS a
    UNION ALL
    SELECT r.oid, CASE WHEN i.indisprimary THEN 2 ELSE 3 END, i.indexrelid::bigint,
           CASE WHEN i.indisprimary THEN 'PRIMARY KEY ('
                WHEN to_jsonb(i) ->> 'indnullsnotdistinct' = 'true' THEN 'UNIQUE NULLS NOT DISTINCT ('
                ELSE 'UNIQUE (' END || k.names || ')',
           CASE WHEN i.indimmediate THEN '' ELSE ' -- holds where a transaction has ended' END
    FROM relations AS r
    JOIN pg_index AS i ON i.indrelid = r.oid AND i.indisunique AND i.indisvalid AND i.indpred IS NULL AND i.indexprs IS NULL
    CROSS JOIN LATERAL (
        SELECT string_agg(named.name, ', ' ORDER BY named.place) AS names
        FROM (SELECT a.name, min(m.place) AS place
              FROM unnest(i.indkey::int[]) WITH ORDINALITY AS m (attnum, place)
              JOIN attributes AS a ON a.oid = r.oid AND a.attnum = m.attnum
              WHERE m.place <= coalesce((to_jsonb(i) ->> 'indnkeyatts')::int, i.indnatts)
              GROUP BY a.name) AS named
    ) AS k
    WHERE NOT r.has_heirs AND k.names IS NOT NULL
), ended AS (
    SELECT s.oid, s.part, s.place, '    ' || s.line ||
           CASE WHEN lead(1) OVER (PARTITION BY s.oid ORDER BY s.part, s.place) IS NULL THEN '' ELSE ',' END || s.remark AS line
    FROM lines AS s
), printed AS (
    SELECT 1 AS part, r.relname,
           CASE WHEN r.has_heirs THEN '-- without its keys and NOT NULL, since other tables inherit from it' || chr(10)
                ELSE '' END ||
           'CREATE TABLE ' || r.name || ' (' || chr(10) ||
           string_agg(e.line, chr(10) ORDER BY e.part, e.place) || chr(10) || ');' AS words
    FROM relations AS r JOIN ended AS e ON e.oid = r.oid
    GROUP BY r.oid, r.relname, r.name, r.has_heirs
    UNION ALL
    SELECT 0, '', '-- ' || count(*) || ' tables are more than the 64 that are read: take out those that no query names'
    FROM relations AS r WHERE r.relkind IN ('r', 'p', 'm') HAVING count(*) > 64
    UNION ALL
    SELECT 2, r.relname, '-- left out: ' ||
           CASE r.relkind WHEN 'v' THEN 'the view ' WHEN 'f' THEN 'the foreign table ' ELSE 'without columns, ' END ||
           regexp_replace(r.name, '[[:space:]]', ' ', 'g')
    FROM relations AS r WHERE NOT EXISTS (SELECT 1 FROM ended AS e WHERE e.oid = r.oid)
)
SELECT p.words FROM printed AS p ORDER BY p.part, p.relname;
";
